//! `setVariable` and `setExpression`: a temporary of the innermost frame, or memory.

ghost use Rattle.std.specs.Prelude.{◌≡◌, ◌<◌, ◌==◌, [], ℕ, None, Some, false, true, length, string_bytes, IfErr, IfOk, IfSome};
ghost use Rattle.std.specs.List.{list_all, list_any};
ghost use Rattle.std.specs.Char.{is_ascii_digit};
ghost use Rattle.qil_tree.specs.declared.ops.Width.{Width};
ghost use Rattle.qil_commands.specs.Numbers.{value_of};
ghost use Rattle.qrev_requests.specs.Members.{json_of};
ghost use Rattle.qrev_views.specs.Variables.{width_letter};
ghost use Rattle.qrev_inspection.specs.Taken.{IsNotTaken, Takes};
ghost use Rattle.qrev_debuggee.specs.declared.failure.Failure.TheVariants.{OutOfMemory};
ghost use Rattle.qrev_inspection.specs.Setting.{AreWords, PokesOnce, RefusesNamed, RefusesTemp, RefusesVariable, SetsData, SetsNamed, SetsTemp, SetsVariable, Stays, poke_at_line, poke_line, set_line, without};

use crate::answering::answer_line;
use crate::looking::{showing_said, text_said};
use crate::results::{cause_of, put_type};
use qil_fragments::Fragment;
use qil_machine::Code;
use qil_render::func_name;
use qil_tree::{Class, Data};
use qrev_debuggee::{Body, Cause, Debuggee, Done, Failure, HasMachine};
use qrev_expressions::{
    Expression, Memory, Missing, Operation, Scene, Unread, Value, bits_at, evaluate, low_bits,
    named_temp, parse,
};
use qrev_map::{FloatClass, Names};
use qrev_requests::Arguments;
use qrev_views::{
    DATA, MACHINE, Readers, Showing, Style, code_of, data_float, data_named, data_word, frame_of,
    letter_of, number_text, told_value, value_at,
};
use std::alloc::{AllocError, Allocator};
use std::num::{f32_to_bits_with_nan, f64_to_bits_with_nan, nearest_f64_to_f32_with_nan};

/// A value that was set, and what it is.
#[derive(Clone, Copy)]
struct Set<'l> {
    value: Option<u64>,
    letter: &'l str,
    class: Option<Class>,
    float: Option<FloatClass>,
}

/// Adds the text of a value, and its type.
fn put_value<A: Allocator + Copy>(
    alloc: A,
    body: Body<A>,
    code: &Code<'_, A>,
    showing: Showing,
    set: Set<'_>,
) -> Result<Body<A>, AllocError> {
    let style = Style::of(set.float, showing.is_hex);
    let value = told_value(alloc, code, style, set.class, set.value)?;
    let body = body.text("value", value.as_str())?;
    put_type(body, showing, set.letter)?.number("variablesReference", 0)
}

/// A value as a float.
fn as_float(value: Value) -> Option<f64> {
    match value {
        Value::Double(float) | Value::Written(float) => Some(float),
        Value::Single(float) => Some(std::num::f32_to_f64_with_nan(float)),
        Value::Number(..) | Value::Missing(_) => None,
    }
}

/// The bits of a value as what is set: a float, or a whole number.
fn bits_of(value: Value, float: Option<FloatClass>) -> Option<u64> {
    match (float, value) {
        (None, Value::Number(number, _)) => Some(low_bits(number)),
        (Some(FloatClass::Double), value) => Some(f64_to_bits_with_nan(as_float(value)?)),
        (Some(FloatClass::Single), Value::Single(float)) => {
            Some(u64::from(f32_to_bits_with_nan(float)))
        }
        (Some(FloatClass::Single), value) => {
            let float = nearest_f64_to_f32_with_nan(as_float(value)?);
            Some(u64::from(f32_to_bits_with_nan(float)))
        }
        _ => None,
    }
}

/// A text without this byte before it.
fn without(byte: u8, text: &[u8]) -> &[u8]
    ensures { result.now ≡ without byte text.now }
{
    match text.split_first() {
        Some((first, rest)) => { if *first == byte { rest } else { text } }
        None => text,
    }
}

/// Whether a text is digits.
fn are_digits(text: &[u8]) -> bool
    ensures { result ≡ list_all is_ascii_digit text.now }
{
    text.iter().all(|byte| byte.is_ascii_digit())
}

/// Whether a text is a number as the session takes it, and no float is meant.
fn is_plain(float: Option<FloatClass>, text: &[u8]) -> bool
    ensures { float ≡ None → (n : ℕ) → value_of text.now ≡ Some n → result ≡ true }
{
    float.is_none() && are_digits(without(b'-', text))
}

/// The value of an expression, in the words of a command. What is none is the session's to refuse.
fn worth_of<'c, A: Allocator + Copy + 'c, M: Readers<A, Code<'c, A>>>(
    alloc: A,
    machine: &M,
    names: &Names<A>,
    scene: Scene,
    float: Option<FloatClass>,
    text: &str,
) -> Result<String<A>, Failure> {
    // What stands behind a value, as the name of an address, isn't a part of it.
    let (front, _) = text.split_once(" <").unwrap_or((text, ""));
    let (front, _) = front.split_once(" (-").unwrap_or((front, ""));
    let expression = match parse(alloc, front.as_bytes()) {
        Ok(expression) => expression,
        Err(Unread::Malformed) => return Ok(String::from_str(alloc, text)?),
        Err(Unread::OutOfMemory) => return Err(Failure::OutOfMemory),
    };
    let value = evaluate(alloc, machine, names, scene, &expression)?;
    match (value, bits_of(value, float)) {
        (_, Some(bits)) => Ok(number_text(alloc, bits)?),
        (Value::Missing(missing), _) => Err(Failure::Because(cause_of(missing))),
        _ => Ok(String::from_str(alloc, text)?),
    }
}

/// The value that a text says, in the words of a command: it may be an expression.
fn words_of<'c, A: Allocator + Copy + 'c, M: Readers<A, Code<'c, A>>>(
    alloc: A,
    machine: &M,
    names: &Names<A>,
    scene: Scene,
    float: Option<FloatClass>,
    text: &str,
) -> Result<String<A>, Failure>
    ensures words { IfOk result (λ words. AreWords float text.now (string_bytes words)) }
    ensures fails { IfErr result (λ why. float ≡ None → (n : ℕ) → value_of text.now ≡ Some n → why ≡ OutOfMemory) }
{
    if is_plain(float, text.as_bytes()) {
        return Ok(String::from_str(alloc, text)?);
    }
    worth_of(alloc, machine, names, scene, float, text)
}

/// Answers the line that sets a temporary.
fn answer_set<'c, 'x, A: Allocator + Copy + 'c, L: HasMachine<A, Code<'c, A>>>(
    debuggee: &mut Debuggee<'c, A, L>,
    name: &'x [u8],
    value: &'x [u8],
) -> Result<Done, Failure>
    ensures done { IfOk result (Takes (record { session = L.state debuggee.old.recorder.live; script = debuggee.old.recorder.script.items; transcript = debuggee.old.recorder.transcript.items }) (record { session = L.state debuggee.new.recorder.live; script = debuggee.new.recorder.script.items; transcript = debuggee.new.recorder.transcript.items }) (set_line name.now value.now)) }
    ensures failed { IfErr result (IsNotTaken (record { session = L.state debuggee.old.recorder.live; script = debuggee.old.recorder.script.items; transcript = debuggee.old.recorder.transcript.items }) (record { session = L.state debuggee.new.recorder.live; script = debuggee.new.recorder.script.items; transcript = debuggee.new.recorder.transcript.items }) (set_line name.now value.now)) }
{
    answer_line(
        debuggee,
        &[
            Fragment::Bytes(b"set %"),
            Fragment::Bytes(name),
            Fragment::Bytes(b" "),
            Fragment::Bytes(value),
        ],
    )
}

/// What the innermost frame holds of the temporary of a name, and what that is.
fn temp_now<'l, 'c, A: Allocator + Copy + 'c, M: Readers<A, Code<'c, A>>>(
    machine: &M,
    names: &Names<A>,
    name: &[u8],
) -> Set<'l>
    ensures { names.now.text.items ≡ [] → result.float ≡ None }
{
    let Some(frame) = frame_of(machine, 1) else {
        return Set {
            value: None,
            letter: "l",
            class: None,
            float: None,
        };
    };
    let (value, class) = named_temp(machine, &frame, name).unwrap_or((None, None));
    let float = names.class_of(func_name(code_of(machine), frame.func()), name);
    Set {
        value,
        letter: letter_of(float, class),
        class,
        float,
    }
}

/// The scene of the innermost frame.
fn innermost(position: u64) -> Scene {
    Scene {
        number: 1,
        position,
    }
}

/// As `words_of`, in a session.
fn words_in<'c, A: Allocator + Copy + 'c, L: HasMachine<A, Code<'c, A>>>(
    debuggee: &Debuggee<'c, A, L>,
    scene: Scene,
    float: Option<FloatClass>,
    text: &str,
) -> Result<String<A>, Failure>
    ensures words { IfOk result (λ words. AreWords float text.now (string_bytes words)) }
    ensures fails { IfErr result (λ why. float ≡ None → (n : ℕ) → value_of text.now ≡ Some n → why ≡ OutOfMemory) }
{
    words_of(
        debuggee.alloc,
        debuggee.machine(),
        &debuggee.names,
        scene,
        float,
        text,
    )
}

/// As `temp_now`, in a session.
fn temp_in<'c, 'l, A: Allocator + Copy + 'c, L: HasMachine<A, Code<'c, A>>>(
    debuggee: &Debuggee<'c, A, L>,
    name: &[u8],
) -> Set<'l>
    ensures { debuggee.now.names.text.items ≡ [] → result.float ≡ None }
{
    temp_now(debuggee.machine(), &debuggee.names, name)
}

/// The name of a temporary in the text that is run, by the one that is shown without its sigil.
fn run_name<'n, A: Allocator + Copy>(names: &'n Names<A>, told: &'n [u8]) -> &'n [u8]
    ensures { names.now.text.items ≡ [] → result.now ≡ told.now }
{
    if names.is_empty() {
        return told;
    }
    names.run(b"%", told)
}

/// The name of a temporary in the text, by the name that is shown.
fn name_in<'c, A: Allocator + Copy + 'c, L: HasMachine<A, Code<'c, A>>>(
    debuggee: &Debuggee<'c, A, L>,
    told: &[u8],
) -> Result<Vec<u8, A>, AllocError>
    ensures { IfOk result (λ name. debuggee.now.names.text.items ≡ [] → name.items ≡ without 37 told.now) }
{
    let plain = run_name(&debuggee.names, without(b'%', told));
    Vec::from_slice(debuggee.alloc, plain)
}

/// Sets a temporary of the innermost frame, and gives its value after that.
fn set_temp<'c, 'x, 'l, A: Allocator + Copy + 'c, L: HasMachine<A, Code<'c, A>>>(
    debuggee: &mut Debuggee<'c, A, L>,
    name: &'x [u8],
    value: &'x str,
) -> Result<Set<'l>, Failure>
    ensures set { IfOk result (λ set. SetsTemp (L.state debuggee.old.recorder.live) (L.state debuggee.new.recorder.live) debuggee.old.names.text.items name.now value.now) }
    ensures stays { IfErr result (Stays (L.state debuggee.old.recorder.live) (L.state debuggee.new.recorder.live)) }
    ensures refused { IfErr result (RefusesTemp (L.state debuggee.old.recorder.live) debuggee.old.names.text.items name.now value.now) }
{
    let plain = name_in(debuggee, name)?;
    let before: Set<'l> = temp_in(debuggee, plain.as_slice());
    let scene = innermost(debuggee.position());
    let words = words_in(debuggee, scene, before.float, value)?;
    answer_set(debuggee, plain.as_slice(), words.as_str().as_bytes())?;
    Ok(temp_in(debuggee, plain.as_slice()))
}

/// Answers the line that writes a word of this letter to a data object.
fn answer_poke<'c, 'x, A: Allocator + Copy + 'c, L: HasMachine<A, Code<'c, A>>>(
    debuggee: &mut Debuggee<'c, A, L>,
    letter: &'x str,
    name: &'x [u8],
    value: &'x [u8],
) -> Result<Done, Failure>
    ensures done { IfOk result (Takes (record { session = L.state debuggee.old.recorder.live; script = debuggee.old.recorder.script.items; transcript = debuggee.old.recorder.transcript.items }) (record { session = L.state debuggee.new.recorder.live; script = debuggee.new.recorder.script.items; transcript = debuggee.new.recorder.transcript.items }) (poke_line letter.now name.now value.now)) }
    ensures failed { IfErr result (IsNotTaken (record { session = L.state debuggee.old.recorder.live; script = debuggee.old.recorder.script.items; transcript = debuggee.old.recorder.transcript.items }) (record { session = L.state debuggee.new.recorder.live; script = debuggee.new.recorder.script.items; transcript = debuggee.new.recorder.transcript.items }) (poke_line letter.now name.now value.now)) }
{
    answer_line(
        debuggee,
        &[
            Fragment::Bytes(b"poke "),
            Fragment::Bytes(letter.as_bytes()),
            Fragment::Bytes(b" $"),
            Fragment::Bytes(name),
            Fragment::Bytes(b" "),
            Fragment::Bytes(value),
        ],
    )
}

/// The shown word of a data object.
fn word_now<'c, A: Allocator + Copy + 'c, M: Readers<A, Code<'c, A>>>(
    machine: &M,
    data: &Data<'_, A>,
) -> Option<u64> {
    let (_, width) = data_word(data);
    let address = code_of(machine)
        .image()
        .address(data.name.bytes())
        .unwrap_or(0);
    value_at(machine, address, width)
}

/// What the shown word of a data object holds, and what that is; and the letter in which it is poked.
fn data_in<'c, 'l, A: Allocator + Copy + 'c, L: HasMachine<A, Code<'c, A>>>(
    debuggee: &Debuggee<'c, A, L>,
    name: &[u8],
) -> Option<(Set<'l>, &'l str)>
    ensures { IfSome result (λ found. (debuggee.now.names.text.items ≡ [] → found.0.float ≡ None) × (width : Width) × (found.1.now ≡ width_letter width)) }
{
    let data = data_named(debuggee.program(), name)?;
    let (letter, width) = data_word(data);
    let float = data_float(&debuggee.names, data);
    let set = Set {
        value: word_now(debuggee.machine(), data),
        letter: letter_of_data(float, letter),
        class: class_of_width(width),
        float,
    };
    Some((set, letter))
}

/// Writes the shown word of a data object, and gives its value after that.
fn set_data<'c, 'x, 'l, A: Allocator + Copy + 'c, L: HasMachine<A, Code<'c, A>>>(
    debuggee: &mut Debuggee<'c, A, L>,
    name: &'x [u8],
    value: &'x str,
) -> Result<Set<'l>, Failure>
    ensures set { IfOk result (λ set. SetsData (L.state debuggee.old.recorder.live) (L.state debuggee.new.recorder.live) debuggee.old.names.text.items name.now value.now) }
    ensures stays { IfErr result (Stays (L.state debuggee.old.recorder.live) (L.state debuggee.new.recorder.live)) }
{
    let plain = without(b'$', name);
    let before: Option<(Set<'l>, &'l str)> = data_in(debuggee, plain);
    let Some((set, letter)) = before else {
        return Err(Failure::Because(Cause::NoSuchName));
    };
    let scene = innermost(debuggee.position());
    let words = words_in(debuggee, scene, set.float, value)?;
    answer_poke(debuggee, letter, plain, words.as_str().as_bytes())?;
    match data_in(debuggee, plain) {
        Some((set, _)) => Ok(set),
        None => Ok(set),
    }
}

/// The letter of a float, or that of a width.
fn letter_of_data<'l>(float: Option<FloatClass>, letter: &'l str) -> &'l str {
    match float {
        Some(FloatClass::Single) => "s",
        Some(FloatClass::Double) => "d",
        None => letter,
    }
}

/// The class in which a number of so many bytes is shown.
fn class_of_width(width: u64) -> Option<Class> {
    if width == 8 {
        Some(Class::L)
    } else {
        Some(Class::W)
    }
}

/// The letter of the poke of memory, the letter that is shown, how many bytes it has, and which float it is.
fn poked(memory: Memory) -> (&'static str, &'static str, u64, Option<FloatClass>)
    ensures { (width : Width) × (result.0.now ≡ width_letter width) }
{
    match memory {
        Memory::Byte => ("b", "b", 1, None),
        Memory::Half => ("h", "h", 2, None),
        Memory::Word => ("w", "w", 4, None),
        Memory::Long => ("l", "l", 8, None),
        Memory::Single => ("w", "s", 4, Some(FloatClass::Single)),
        Memory::Double => ("l", "d", 8, Some(FloatClass::Double)),
    }
}

/// What the memory at an address holds.
fn memory_now<'c, A: Allocator + Copy + 'c, M: Readers<A, Code<'c, A>>>(
    machine: &M,
    memory: Memory,
    address: u64,
) -> Option<u64> {
    match poked(memory).2 {
        1 => bits_at(machine, address, 1),
        2 => bits_at(machine, address, 2),
        4 => bits_at(machine, address, 4),
        _ => bits_at(machine, address, 8),
    }
}

/// Answers the line that writes a word of this letter to an address.
fn answer_poke_at<'c, 'x, A: Allocator + Copy + 'c, L: HasMachine<A, Code<'c, A>>>(
    debuggee: &mut Debuggee<'c, A, L>,
    letter: &'x str,
    address: u64,
    value: &'x [u8],
) -> Result<Done, Failure>
    ensures done { IfOk result (Takes (record { session = L.state debuggee.old.recorder.live; script = debuggee.old.recorder.script.items; transcript = debuggee.old.recorder.transcript.items }) (record { session = L.state debuggee.new.recorder.live; script = debuggee.new.recorder.script.items; transcript = debuggee.new.recorder.transcript.items }) (poke_at_line letter.now address value.now)) }
    ensures failed { IfErr result (IsNotTaken (record { session = L.state debuggee.old.recorder.live; script = debuggee.old.recorder.script.items; transcript = debuggee.old.recorder.transcript.items }) (record { session = L.state debuggee.new.recorder.live; script = debuggee.new.recorder.script.items; transcript = debuggee.new.recorder.transcript.items }) (poke_at_line letter.now address value.now)) }
{
    answer_line(
        debuggee,
        &[
            Fragment::Bytes(b"poke "),
            Fragment::Bytes(letter.as_bytes()),
            Fragment::Bytes(b" "),
            Fragment::Number(address),
            Fragment::Bytes(b" "),
            Fragment::Bytes(value),
        ],
    )
}

/// Writes a value to memory, and gives what is there after that.
fn set_memory<'c, 'x, 'l, A: Allocator + Copy + 'c, L: HasMachine<A, Code<'c, A>>>(
    debuggee: &mut Debuggee<'c, A, L>,
    scene: Scene,
    memory: Memory,
    address: u64,
    value: &'x str,
) -> Result<Set<'l>, Failure>
    ensures set { IfOk result (λ set. PokesOnce (L.state debuggee.old.recorder.live) (L.state debuggee.new.recorder.live)) }
    ensures stays { IfErr result (Stays (L.state debuggee.old.recorder.live) (L.state debuggee.new.recorder.live)) }
{
    let (verb, letter, width, float) = poked(memory);
    let words = words_in(debuggee, scene, float, value)?;
    answer_poke_at(debuggee, verb, address, words.as_str().as_bytes())?;
    Ok(Set {
        value: memory_now(debuggee.machine(), memory, address),
        letter,
        class: class_of_width(width),
        float,
    })
}

/// The address that an expression without its last operation, a load, is worth.
fn address_worth<'c, A: Allocator + Copy + 'c, M: Readers<A, Code<'c, A>>>(
    alloc: A,
    machine: &M,
    names: &Names<A>,
    scene: Scene,
    expression: Expression<'_, A>,
) -> Result<u64, Failure> {
    let Expression { mut operations } = expression;
    operations.pop();
    let address = Expression { operations };
    match evaluate(alloc, machine, names, scene, &address)? {
        Value::Number(number, _) => Ok(low_bits(number)),
        Value::Missing(missing) => Err(Failure::Because(cause_of(missing))),
        _ => Err(Failure::Because(cause_of(Missing::NotWhole))),
    }
}

/// As `address_worth`, in a session.
fn address_in<'c, A: Allocator + Copy + 'c, L: HasMachine<A, Code<'c, A>>>(
    debuggee: &Debuggee<'c, A, L>,
    scene: Scene,
    expression: Expression<'_, A>,
) -> Result<u64, Failure> {
    address_worth(
        debuggee.alloc,
        debuggee.machine(),
        &debuggee.names,
        scene,
        expression,
    )
}

/// Sets what an expression names, and gives its value after that.
fn set_said<'c, 'x, 'l, A: Allocator + Copy + 'c, L: HasMachine<A, Code<'c, A>>>(
    debuggee: &mut Debuggee<'c, A, L>,
    scene: Scene,
    text: &'x str,
    value: &'x str,
) -> Result<Set<'l>, Failure>
    ensures set { IfOk result (λ set. PokesOnce (L.state debuggee.old.recorder.live) (L.state debuggee.new.recorder.live)) }
    ensures stays { IfErr result (Stays (L.state debuggee.old.recorder.live) (L.state debuggee.new.recorder.live)) }
{
    let expression = match parse(debuggee.alloc, text.as_bytes()) {
        Ok(expression) => expression,
        Err(Unread::Malformed) => return Err(Failure::Because(Cause::NoSuchName)),
        Err(Unread::OutOfMemory) => return Err(Failure::OutOfMemory),
    };
    match (
        expression.operations.as_slice().last().copied(),
        expression.operations.len(),
    ) {
        (Some(Operation::Temp(name)), 1) => {
            if scene.number == 1 {
                set_temp(debuggee, name, value)
            } else {
                Err(Failure::Because(Cause::ReadOnly))
            }
        }
        (Some(Operation::Load(memory)), _) => {
            let address = address_in(debuggee, scene, expression)?;
            set_memory(debuggee, scene, memory, address, value)
        }
        _ => Err(Failure::Because(Cause::ReadOnly)),
    }
}

/// Why a scope is read-only, if it is. Only the temporaries of the innermost frame and data can be set.
fn refusal_of<'c, A: Allocator + Copy + 'c, M: Readers<A, Code<'c, A>>>(
    machine: &M,
    reference: u64,
) -> Option<Cause>
    ensures none { result ≡ None → reference ≡ 1 }
    ensures refused { IfSome result (λ cause. reference ≡ 1 → length (M.whole machine.now).frames < 1) }
{
    if reference == MACHINE {
        return Some(Cause::ReadOnly);
    }
    match frame_of(machine, reference) {
        Some(_) => {
            if reference == 1 {
                None
            } else {
                Some(Cause::ReadOnly)
            }
        }
        None => Some(Cause::NoSuchVariables),
    }
}

/// The memory that a part of a data object is, or of what a temporary points to, by its expression.
fn is_part(reference: u64) -> bool
    ensures { reference ≡ 1 → result ≡ false }
{
    reference >= qrev_views::OBJECTS || (reference >= qrev_views::POINTED && reference < MACHINE)
}

/// Sets a variable of a scope, and gives its value after that.
fn set_in<'c, 'x, 'l, A: Allocator + Copy + 'c, L: HasMachine<A, Code<'c, A>>>(
    debuggee: &mut Debuggee<'c, A, L>,
    reference: u64,
    name: &'x [u8],
    value: &'x str,
) -> Result<Set<'l>, Failure>
    ensures set { IfOk result (λ set. SetsNamed (L.state debuggee.old.recorder.live) (L.state debuggee.new.recorder.live) debuggee.old.names.text.items reference name.now value.now) }
    ensures stays { IfErr result (Stays (L.state debuggee.old.recorder.live) (L.state debuggee.new.recorder.live)) }
    ensures refused { IfErr result (RefusesNamed (L.state debuggee.old.recorder.live) debuggee.old.names.text.items reference name.now value.now) }
{
    if reference == DATA {
        return set_data(debuggee, name, value);
    }
    match refusal_of(debuggee.machine(), reference) {
        Some(cause) => Err(Failure::Because(cause)),
        None => set_temp(debuggee, name, value),
    }
}

/// Whether a newline is in a name or in a value.
fn has_newline(name: &[u8], value: &[u8]) -> bool
    ensures { list_any (λ b. b == 10) name.now ≡ false → list_any (λ b. b == 10) value.now ≡ false → result ≡ false }
{
    name.contains(&b'\n') || value.contains(&b'\n')
}

/// Sets a variable, and gives its new value.
fn set_asked<'c, 'l, A: Allocator + Copy + 'c, L: HasMachine<A, Code<'c, A>>>(
    debuggee: &mut Debuggee<'c, A, L>,
    asked: Arguments<'_, '_, A>,
) -> Result<Set<'l>, Failure>
    ensures set { IfOk result (λ set. SetsVariable (L.state debuggee.old.recorder.live) (L.state debuggee.new.recorder.live) debuggee.old.names.text.items (json_of asked.entry)) }
    ensures stays { IfErr result (Stays (L.state debuggee.old.recorder.live) (L.state debuggee.new.recorder.live)) }
    ensures refused { IfErr result (RefusesVariable (L.state debuggee.old.recorder.live) debuggee.old.names.text.items (json_of asked.entry)) }
{
    let reference = asked.number("variablesReference").unwrap_or(0);
    let name = text_said(asked, "name").as_bytes();
    let value = text_said(asked, "value");
    if has_newline(name, value.as_bytes()) {
        return Err(Failure::Because(Cause::NewlineInValue));
    }
    if is_part(reference) {
        return Err(Failure::Because(Cause::ReadOnly));
    }
    set_in(debuggee, reference, name, value)
}

/// Sets a variable.
pub fn set_variable<'c, A: Allocator + Copy + 'c, L: HasMachine<A, Code<'c, A>>>(
    debuggee: &mut Debuggee<'c, A, L>,
    asked: Arguments<'_, '_, A>,
    body: Body<A>,
) -> Result<Body<A>, Failure>
    ensures set { IfOk result (λ o. SetsVariable (L.state debuggee.old.recorder.live) (L.state debuggee.new.recorder.live) debuggee.old.names.text.items (json_of asked.entry)) }
    ensures stays { IfErr result (Stays (L.state debuggee.old.recorder.live) (L.state debuggee.new.recorder.live)) }
    ensures refused { IfErr result (RefusesVariable (L.state debuggee.old.recorder.live) debuggee.old.names.text.items (json_of asked.entry)) }
{
    let set = set_asked(debuggee, asked)?;
    let showing = showing_said(debuggee.client, asked);
    let code = code_of(debuggee.machine());
    Ok(put_value(debuggee.alloc, body, code, showing, set)?)
}

/// Sets what an expression names.
pub fn set_expression<'c, A: Allocator + Copy + 'c, L: HasMachine<A, Code<'c, A>>>(
    debuggee: &mut Debuggee<'c, A, L>,
    asked: Arguments<'_, '_, A>,
    body: Body<A>,
) -> Result<Body<A>, Failure>
    ensures set { IfOk result (λ o. PokesOnce (L.state debuggee.old.recorder.live) (L.state debuggee.new.recorder.live)) }
    ensures stays { IfErr result (Stays (L.state debuggee.old.recorder.live) (L.state debuggee.new.recorder.live)) }
{
    let value = asked.text("value").unwrap_or("");
    if value.as_bytes().contains(&b'\n') {
        return Err(Failure::Because(Cause::NewlineInValue));
    }
    let scene = Scene {
        number: asked.number("frameId").unwrap_or(1),
        position: debuggee.position(),
    };
    let text = asked.text("expression").unwrap_or("");
    let set = set_said(debuggee, scene, text, value)?;
    let showing = showing_said(debuggee.client, asked);
    let code = code_of(debuggee.machine());
    Ok(put_value(debuggee.alloc, body, code, showing, set)?)
}
