//! Canonical texts: how an instruction, a phi or a jump of the tree is written. Nothing here takes memory.

ghost use Rattle.std.specs.Prelude.{◌≡◌, List, ℕ, All, ◌-◌, ◌^◌, ◌<◌, ◌++◌, ◌∷◌, []};
ghost use Rattle.std.specs.List.{flat_map};
ghost use Rattle.qil_streams.specs.Device.{HasPut};
ghost use Rattle.qil_printer.specs.Fragments.{fragment_bytes, more_argument_text, more_source_text};
ghost use Rattle.qil_printer.specs.Canonical.{class_name, type_name, unary_name, binary_name, compare_name, extension_name, load_name, alloc_name, store_name, operand_bytes, text_of, target_words, one_value, two_values, expr_words, close_paren, phi_start, call_words, argument_words, arguments_words, source_words, sources_words, inst_text, phi_text, jump_text};
ghost use Rattle.qil_lexer.specs.declared.token.Token.{Token};
ghost use Rattle.qil_lexer.specs.Cut.{IsShaped, Cuts};
ghost use Rattle.qil_tree.specs.declared.tree.Inst.{Inst};
ghost use Rattle.qil_tree.specs.declared.tree.Phi.{Phi};
ghost use Rattle.qil_tree.specs.declared.tree.Jump.{Jump};
ghost use Rattle.qil_parser.specs.Token.{seen};
ghost use Rattle.qil_parser.specs.Functions.{InstOf, PhiOf, JumpOf};
ghost use Rattle.qil_tree.specs.declared.tree.Program.{Program};
ghost use Rattle.qil_parser.specs.Programs.{Spells};
ghost use Rattle.qil_printer.specs.Respelled.{InstRespelled, PhiRespelled, JumpRespelled, ProgramRespelled};

use qil_streams::{Put, PutError, put_number};
use qil_tree::{
    AbiType, AllocOp, Argument, BinaryOp, CallResult, Class, CompareOp, Expr, Extension, Inst,
    InstKind, Jump, JumpKind, LoadOp, Operand, Phi, PhiSource, Target, UnaryOp, Width,
};
use std::alloc::Allocator;

/// The word of a class.
fn class_name(class: Class) -> &'static [u8]
    ensures { result.now ≡ class_name class }
{
    match class {
        Class::W => b"w",
        Class::L => b"l",
    }
}

/// The word of a type.
fn type_name(abi_type: AbiType) -> &'static [u8]
    ensures { result.now ≡ type_name abi_type }
{
    match abi_type {
        AbiType::W => b"w",
        AbiType::L => b"l",
        AbiType::Sb => b"sb",
        AbiType::Ub => b"ub",
        AbiType::Sh => b"sh",
        AbiType::Uh => b"uh",
    }
}

/// The word of an operation on one operand.
fn unary_name(op: UnaryOp) -> &'static [u8]
    ensures { result.now ≡ unary_name op }
{
    match op {
        UnaryOp::Copy => b"copy",
        UnaryOp::Neg => b"neg",
    }
}

/// The word of an operation on two operands.
fn binary_name(op: BinaryOp) -> &'static [u8]
    ensures { result.now ≡ binary_name op }
{
    match op {
        BinaryOp::Add => b"add",
        BinaryOp::Sub => b"sub",
        BinaryOp::Mul => b"mul",
        BinaryOp::Div => b"div",
        BinaryOp::Rem => b"rem",
        BinaryOp::Udiv => b"udiv",
        BinaryOp::Urem => b"urem",
        BinaryOp::And => b"and",
        BinaryOp::Or => b"or",
        BinaryOp::Xor => b"xor",
        BinaryOp::Sar => b"sar",
        BinaryOp::Shr => b"shr",
        BinaryOp::Shl => b"shl",
    }
}

/// The word of a comparison, without the class at its end.
fn compare_name(op: CompareOp) -> &'static [u8]
    ensures { result.now ≡ compare_name op }
{
    match op {
        CompareOp::Eq => b"ceq",
        CompareOp::Ne => b"cne",
        CompareOp::Sle => b"csle",
        CompareOp::Slt => b"cslt",
        CompareOp::Sge => b"csge",
        CompareOp::Sgt => b"csgt",
        CompareOp::Ule => b"cule",
        CompareOp::Ult => b"cult",
        CompareOp::Uge => b"cuge",
        CompareOp::Ugt => b"cugt",
    }
}

/// The word of an extension.
fn extension_name(op: Extension) -> &'static [u8]
    ensures { result.now ≡ extension_name op }
{
    match op {
        Extension::Sw => b"extsw",
        Extension::Uw => b"extuw",
        Extension::Sh => b"extsh",
        Extension::Uh => b"extuh",
        Extension::Sb => b"extsb",
        Extension::Ub => b"extub",
    }
}

/// The word of a load: of the two words for four bytes with a sign, `loadsw`.
fn load_name(op: LoadOp) -> &'static [u8]
    ensures { result.now ≡ load_name op }
{
    match op {
        LoadOp::L => b"loadl",
        LoadOp::Sw => b"loadsw",
        LoadOp::Uw => b"loaduw",
        LoadOp::Sh => b"loadsh",
        LoadOp::Uh => b"loaduh",
        LoadOp::Sb => b"loadsb",
        LoadOp::Ub => b"loadub",
    }
}

/// The word of an allocation on the stack.
fn alloc_name(op: AllocOp) -> &'static [u8]
    ensures { result.now ≡ alloc_name op }
{
    match op {
        AllocOp::Four => b"alloc4",
        AllocOp::Eight => b"alloc8",
        AllocOp::Sixteen => b"alloc16",
    }
}

/// The word of a store.
fn store_name(width: Width) -> &'static [u8]
    ensures { result.now ≡ store_name width }
{
    match width {
        Width::B => b"storeb",
        Width::H => b"storeh",
        Width::W => b"storew",
        Width::L => b"storel",
    }
}

/// A fragment of a text.
#[derive(Clone, Copy)]
pub enum Fragment<'p, 'a> {
    Bytes(&'p [u8]),
    /// In decimal digits.
    Number(u64),
    /// An operand, with the sigil of its name.
    Value(&'p Operand<'a>),
}

/// Puts a name after its sigil.
fn put_name<P: Put>(out: &mut P, sigil: &[u8], name: &[u8]) -> Result<(), PutError>
    requires { P.stops out.old < 2 ^ 64 - 1 }
    ensures { HasPut P.written P.stops P.device result out.old out.new (sigil.now ++ name.now) }
{
    out.put(sigil)?;
    out.put(name)
}

fn put_operand<P: Put>(out: &mut P, operand: &Operand) -> Result<(), PutError>
    requires { P.stops out.old < 2 ^ 64 - 1 }
    ensures { HasPut P.written P.stops P.device result out.old out.new (operand_bytes operand.now) }
{
    match operand {
        Operand::Number(number) => put_number(out, *number),
        Operand::Global(name) => put_name(out, b"$", name.bytes()),
        Operand::Temp(name) => put_name(out, b"%", name.bytes()),
    }
}

fn put_fragment<P: Put>(out: &mut P, fragment: &Fragment) -> Result<(), PutError>
    requires { P.stops out.old < 2 ^ 64 - 1 }
    ensures { HasPut P.written P.stops P.device result out.old out.new (fragment_bytes fragment.now) }
{
    match fragment {
        Fragment::Bytes(bytes) => out.put(bytes),
        Fragment::Number(number) => put_number(out, *number),
        Fragment::Value(operand) => put_operand(out, operand),
    }
}

/// Puts fragments of a text one after the other.
fn put_fragments<P: Put>(out: &mut P, fragments: &[Fragment]) -> Result<(), PutError>
    requires { P.stops out.old < 2 ^ 64 - 1 }
    ensures { HasPut P.written P.stops P.device result out.old out.new (flat_map fragment_bytes fragments.now) }
{
    for fragment in fragments {
        put_fragment(out, fragment)?;
    }
    Ok(())
}

/// Puts a target, and an operation on one value.
fn put_one<'p, 'a, P: Put>(
    out: &mut P,
    target: &'p Target<'a>,
    op: &'p [u8],
    value: &'p Operand<'a>,
) -> Result<(), PutError>
    requires { P.stops out.old < 2 ^ 64 - 1 }
    ensures { HasPut P.written P.stops P.device result out.old out.new (text_of (target_words target.now.name (class_name target.now.class) ++ one_value op.now value.now)) }
{
    put_fragments(
        out,
        &[
            Fragment::Bytes(b"%"),
            Fragment::Bytes(target.name.bytes()),
            Fragment::Bytes(b" ="),
            Fragment::Bytes(class_name(target.class)),
            Fragment::Bytes(b" "),
            Fragment::Bytes(op),
            Fragment::Bytes(b" "),
            Fragment::Value(value),
        ],
    )
}

/// Puts a target, and an operation on two values; the operation's word ends with a class or with nothing.
fn put_two<'p, 'a, P: Put>(
    out: &mut P,
    target: &'p Target<'a>,
    op: &'p [u8],
    class: &'p [u8],
    left: &'p Operand<'a>,
    right: &'p Operand<'a>,
) -> Result<(), PutError>
    requires { P.stops out.old < 2 ^ 64 - 1 }
    ensures { HasPut P.written P.stops P.device result out.old out.new (text_of (target_words target.now.name (class_name target.now.class) ++ two_values (op.now ++ class.now) left.now right.now)) }
{
    put_fragments(
        out,
        &[
            Fragment::Bytes(b"%"),
            Fragment::Bytes(target.name.bytes()),
            Fragment::Bytes(b" ="),
            Fragment::Bytes(class_name(target.class)),
            Fragment::Bytes(b" "),
            Fragment::Bytes(op),
            Fragment::Bytes(class),
            Fragment::Bytes(b" "),
            Fragment::Value(left),
            Fragment::Bytes(b", "),
            Fragment::Value(right),
        ],
    )
}

fn put_assign<'p, 'a, P: Put>(
    out: &mut P,
    target: &'p Target<'a>,
    value: &'p Expr<'a>,
) -> Result<(), PutError>
    requires { P.stops out.old < 2 ^ 64 - 1 }
    ensures { HasPut P.written P.stops P.device result out.old out.new (text_of (target_words target.now.name (class_name target.now.class) ++ expr_words value.now)) }
{
    match value {
        Expr::Unary(op, value) => put_one(out, target, unary_name(*op), value),
        Expr::Binary(op, left, right) => put_two(out, target, binary_name(*op), b"", left, right),
        Expr::Compare(op, class, left, right) => put_two(
            out,
            target,
            compare_name(*op),
            class_name(*class),
            left,
            right,
        ),
        Expr::Extend(op, value) => put_one(out, target, extension_name(*op), value),
        Expr::Load(op, value) => put_one(out, target, load_name(*op), value),
    }
}

/// Puts a call up to its opening bracket.
fn put_called<'p, 'a, P: Put>(
    out: &mut P,
    target: &'p Option<CallResult<'a>>,
    callee: &'p Operand<'a>,
) -> Result<(), PutError>
    requires { P.stops out.old < 2 ^ 64 - 1 }
    ensures { HasPut P.written P.stops P.device result out.old out.new (text_of (call_words target.now callee.now)) }
{
    match target {
        None => put_fragments(
            out,
            &[
                Fragment::Bytes(b"call "),
                Fragment::Value(callee),
                Fragment::Bytes(b"("),
            ],
        ),
        Some(to) => put_fragments(
            out,
            &[
                Fragment::Bytes(b"%"),
                Fragment::Bytes(to.name.bytes()),
                Fragment::Bytes(b" ="),
                Fragment::Bytes(type_name(to.abi_type)),
                Fragment::Bytes(b" call "),
                Fragment::Value(callee),
                Fragment::Bytes(b"("),
            ],
        ),
    }
}

/// Puts a comma and an argument.
fn put_argument<P: Put>(out: &mut P, argument: &Argument) -> Result<(), PutError>
    requires { P.stops out.old < 2 ^ 64 - 1 }
    ensures { HasPut P.written P.stops P.device result out.old out.new (more_argument_text argument.now) }
{
    put_fragments(
        out,
        &[
            Fragment::Bytes(b", "),
            Fragment::Bytes(type_name(argument.abi_type)),
            Fragment::Bytes(b" "),
            Fragment::Value(&argument.value),
        ],
    )
}

/// Puts the arguments after a first.
fn put_more_arguments<P: Put>(out: &mut P, arguments: &[Argument]) -> Result<(), PutError>
    requires { P.stops out.old < 2 ^ 64 - 1 }
    ensures { HasPut P.written P.stops P.device result out.old out.new (flat_map more_argument_text arguments.now) }
{
    for argument in arguments {
        put_argument(out, argument)?;
    }
    Ok(())
}

/// Puts an argument.
fn put_first_argument<P: Put>(out: &mut P, argument: &Argument) -> Result<(), PutError>
    requires { P.stops out.old < 2 ^ 64 - 1 }
    ensures { HasPut P.written P.stops P.device result out.old out.new (text_of (argument_words argument.now)) }
{
    put_fragments(
        out,
        &[
            Fragment::Bytes(type_name(argument.abi_type)),
            Fragment::Bytes(b" "),
            Fragment::Value(&argument.value),
        ],
    )
}

fn put_arguments<P: Put>(out: &mut P, arguments: &[Argument]) -> Result<(), PutError>
    requires { P.stops out.old < 2 ^ 64 - 1 }
    ensures { HasPut P.written P.stops P.device result out.old out.new (text_of (arguments_words arguments.now)) }
{
    match arguments {
        [] => Ok(()),
        [first, rest @ ..] => {
            put_first_argument(out, first)?;
            put_more_arguments(out, rest)
        }
    }
}

fn put_call<'p, 'a, P: Put>(
    out: &mut P,
    target: &'p Option<CallResult<'a>>,
    callee: &'p Operand<'a>,
    arguments: &'p [Argument<'a>],
) -> Result<(), PutError>
    requires { P.stops out.old < 2 ^ 64 - 1 }
    ensures { HasPut P.written P.stops P.device result out.old out.new (text_of (call_words target.now callee.now ++ (arguments_words arguments.now ++ close_paren ∷ []))) }
{
    put_called(out, target, callee)?;
    put_arguments(out, arguments)?;
    out.put(b")")
}

/// Puts the canonical text of an instruction: `%x =w add 2, 3`, `storew 1, %p`, `%r =w call $f(w 1, l %p)`.
/// `loadw` is written as `loadsw`; numbers are written in unsigned decimals.
///
/// # Errors
///
/// `PutError` where `out` stopped. Then a prefix of the text was put.
pub fn inst_text<A: Allocator, P: Put>(inst: &Inst<'_, A>, out: &mut P) -> Result<(), PutError>
    requires { P.stops out.old < 2 ^ 64 - 1 }
    ensures { HasPut P.written P.stops P.device result out.old out.new (inst_text inst.now) }
{
    match &inst.kind {
        InstKind::Assign(target, value) => put_assign(out, target, value),
        InstKind::Alloc(target, op, size) => put_one(out, target, alloc_name(*op), size),
        InstKind::Store(width, value, to) => put_fragments(
            out,
            &[
                Fragment::Bytes(store_name(*width)),
                Fragment::Bytes(b" "),
                Fragment::Value(value),
                Fragment::Bytes(b", "),
                Fragment::Value(to),
            ],
        ),
        InstKind::Blit(from, to, count) => put_fragments(
            out,
            &[
                Fragment::Bytes(b"blit "),
                Fragment::Value(from),
                Fragment::Bytes(b", "),
                Fragment::Value(to),
                Fragment::Bytes(b", "),
                Fragment::Number(*count),
            ],
        ),
        InstKind::Call(target, callee, arguments) => put_call(
            out,
            target,
            callee,
            arguments.as_slice(),
        ),
    }
}

/// Puts a comma and a source.
fn put_source<P: Put>(out: &mut P, source: &PhiSource) -> Result<(), PutError>
    requires { P.stops out.old < 2 ^ 64 - 1 }
    ensures { HasPut P.written P.stops P.device result out.old out.new (more_source_text source.now) }
{
    put_fragments(
        out,
        &[
            Fragment::Bytes(b", @"),
            Fragment::Bytes(source.label.bytes()),
            Fragment::Bytes(b" "),
            Fragment::Value(&source.value),
        ],
    )
}

/// Puts the sources after a first.
fn put_more_sources<P: Put>(out: &mut P, sources: &[PhiSource]) -> Result<(), PutError>
    requires { P.stops out.old < 2 ^ 64 - 1 }
    ensures { HasPut P.written P.stops P.device result out.old out.new (flat_map more_source_text sources.now) }
{
    for source in sources {
        put_source(out, source)?;
    }
    Ok(())
}

/// Puts a source.
fn put_first_source<P: Put>(out: &mut P, source: &PhiSource) -> Result<(), PutError>
    requires { P.stops out.old < 2 ^ 64 - 1 }
    ensures { HasPut P.written P.stops P.device result out.old out.new (text_of (source_words source.now)) }
{
    put_fragments(
        out,
        &[
            Fragment::Bytes(b" @"),
            Fragment::Bytes(source.label.bytes()),
            Fragment::Bytes(b" "),
            Fragment::Value(&source.value),
        ],
    )
}

fn put_sources<P: Put>(out: &mut P, sources: &[PhiSource]) -> Result<(), PutError>
    requires { P.stops out.old < 2 ^ 64 - 1 }
    ensures { HasPut P.written P.stops P.device result out.old out.new (text_of (sources_words sources.now)) }
{
    match sources {
        [] => Ok(()),
        [first, rest @ ..] => {
            put_first_source(out, first)?;
            put_more_sources(out, rest)
        }
    }
}

/// Puts a phi up to its sources.
fn put_phi<P: Put>(out: &mut P, target: &Target) -> Result<(), PutError>
    requires { P.stops out.old < 2 ^ 64 - 1 }
    ensures { HasPut P.written P.stops P.device result out.old out.new (text_of (phi_start target.now)) }
{
    put_fragments(
        out,
        &[
            Fragment::Bytes(b"%"),
            Fragment::Bytes(target.name.bytes()),
            Fragment::Bytes(b" ="),
            Fragment::Bytes(class_name(target.class)),
            Fragment::Bytes(b" phi"),
        ],
    )
}

/// Puts the canonical text of a phi: `%x =w phi @a 1, @b %y`.
///
/// # Errors
///
/// `PutError` where `out` stopped. Then a prefix of the text was put.
pub fn phi_text<A: Allocator, P: Put>(phi: &Phi<'_, A>, out: &mut P) -> Result<(), PutError>
    requires { P.stops out.old < 2 ^ 64 - 1 }
    ensures { HasPut P.written P.stops P.device result out.old out.new (phi_text phi.now) }
{
    put_phi(out, &phi.target)?;
    put_sources(out, phi.sources.as_slice())
}

/// Puts the canonical text of a jump: `jmp @a`, `jnz %c, @a, @b`, `ret %x`, `ret`, `hlt`.
///
/// # Errors
///
/// `PutError` where `out` stopped. Then a prefix of the text was put.
pub fn jump_text<P: Put>(jump: &Jump, out: &mut P) -> Result<(), PutError>
    requires { P.stops out.old < 2 ^ 64 - 1 }
    ensures { HasPut P.written P.stops P.device result out.old out.new (jump_text jump.now) }
{
    match &jump.kind {
        JumpKind::Jmp(to) => put_fragments(
            out,
            &[Fragment::Bytes(b"jmp @"), Fragment::Bytes(to.bytes())],
        ),
        JumpKind::Jnz(value, if_set, if_zero) => put_fragments(
            out,
            &[
                Fragment::Bytes(b"jnz "),
                Fragment::Value(value),
                Fragment::Bytes(b", @"),
                Fragment::Bytes(if_set.bytes()),
                Fragment::Bytes(b", @"),
                Fragment::Bytes(if_zero.bytes()),
            ],
        ),
        JumpKind::Ret(None) => out.put(b"ret"),
        JumpKind::Ret(Some(value)) => put_fragments(
            out,
            &[Fragment::Bytes(b"ret "), Fragment::Value(value)],
        ),
        JumpKind::Hlt => out.put(b"hlt"),
    }
}

/// The canonical text of an instruction, phi or jump that tokens of a text spell is cut into tokens that spell the
/// same, its line aside; and so is that of each one of a program that a text spells, with the jumps that it leaves out.
pub fn canonical_spells<A>()
    ensures inst { (ts : List Token) (i : Inst A) → All IsShaped ts → InstOf (seen ts) i → InstRespelled i }
    ensures phi { (ts : List Token) (p : Phi A) → All IsShaped ts → PhiOf (seen ts) p → PhiRespelled p }
    ensures jump { (ts : List Token) (j : Jump) → All IsShaped ts → JumpOf (seen ts) j → JumpRespelled j }
    ensures program { (text : List ℕ) (ts : List Token) (p : Program A) → Cuts text ts → Spells (seen ts) p → ProgramRespelled p }
{}
