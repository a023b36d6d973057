//! The functions of a heap, as the last two words of the command line name them: `--heap ROLE=FUNCTION,..`.

ghost use Rattle.std.specs.Prelude.{◌≡◌, [], IfOk, IsOk};

use qil_code::Code;
use qil_layout::FuncId;
use qil_suspicions::HeapRole;
use std::alloc::{AllocError, Allocator};

/// Why there is no heap.
#[derive(Clone, Copy)]
pub enum NoHeap {
    /// A role or a function is unknown.
    Unknown,
    Memory,
}

/// Takes what is said of a heap from the words of a command line, if they end with it.
pub fn take_heap(words: &mut Vec<String>) -> Option<String> {
    let before = words.len().checked_sub(2)?;
    if words.as_slice().get(before)?.as_bytes() != b"--heap".as_slice() {
        return None;
    }
    let roles = words.pop();
    let _ = words.pop();
    roles
}

/// What stands before the first of some bytes, and what stands behind it.
fn split(text: &[u8], mark: u8) -> (&[u8], &[u8]) {
    for index in 0..text.len() {
        if text[index] == mark {
            return (&text[..index], &text[index + 1..]);
        }
    }
    (text, &[])
}

/// The role of a name.
fn role_of(name: &[u8]) -> Option<HeapRole> {
    match name {
        b"take" => Some(HeapRole::Take),
        b"calloc" => Some(HeapRole::Calloc),
        b"realloc" => Some(HeapRole::Realloc),
        b"memalign" => Some(HeapRole::Memalign),
        b"give" => Some(HeapRole::Give),
        b"look" => Some(HeapRole::Look),
        _ => None,
    }
}

/// The function and the role of a part, as `take=malloc`.
fn part_of<A: Allocator + Copy>(code: &Code<'_, A>, part: &[u8]) -> Option<(FuncId, HeapRole)> {
    let (role, function) = split(part, b'=');
    Some((code.func_named(function)?, role_of(role)?))
}

/// The functions of a heap, by the text that names some.
fn heap_of<A: Allocator + Copy>(
    alloc: A,
    code: &Code<'_, A>,
    text: &[u8],
) -> Result<Vec<(FuncId, HeapRole), A>, NoHeap> {
    let mut heap = Vec::new(alloc);
    let mut rest = text;
    for _ in 0..text.len() {
        if rest.is_empty() {
            return Ok(heap);
        }
        let (part, behind) = split(rest, b',');
        rest = behind;
        let Some(known) = part_of(code, part) else {
            return Err(NoHeap::Unknown);
        };
        if heap.push(known).is_err() {
            return Err(NoHeap::Memory);
        }
    }
    Ok(heap)
}

/// The functions of a heap, and what each of them does; none for an empty text.
pub fn heap_said<A: Allocator + Copy>(
    alloc: A,
    code: &Code<'_, A>,
    text: &[u8],
) -> Result<Vec<(FuncId, HeapRole), A>, NoHeap>
    ensures none { text.now ≡ [] → IfOk result (λ heap. heap.items ≡ []) }
    ensures ok { text.now ≡ [] → IsOk result }
{
    if text.is_empty() {
        return Ok(Vec::new(alloc));
    }
    heap_of(alloc, code, text)
}
