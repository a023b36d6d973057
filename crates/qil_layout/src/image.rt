//! The layout of a program, as it is read.

ghost use Rattle.std.specs.Prelude.{◌≡◌, ◌<◌, ◌≤◌, ◌^◌, ℕ, List, None, IfSome, length, option_map, slice_get};
ghost use Rattle.qil_layout.specs.Layout.{address_of, bytes_of, fault_of};
ghost use Rattle.qil_symbols.specs.Tables.{value_at};
ghost use Rattle.qil_layout.specs.Callee.{lies, func_at, callee_at};

use crate::callee::{Callee, FuncId};
use crate::place::{EXIT, FUNC_BASE, FUNC_STRIDE, PUTCHAR, PUTS};
use qil_symbols::Firsts;
use qil_tree::{Name, Program};
use std::alloc::Allocator;
use std::marker::Model;

/// Where the names of a program lie, and the bytes of its data.
#[derive(Drop)]
pub struct Image<'c, A: Allocator> {
    program: &'c Program<'c, A>,
    names: Firsts<'c, u64, A>,
    bytes: Vec<u8, A>,
}

impl<'c, A: Allocator> Model for Image<'c, A> {
    ghost use Rattle.std.specs.Prelude.{◌≡◌, ◌≤◌, ℕ, List, None, length};
    ghost use Rattle.qil_tree.specs.declared.tree.Program.{Program};
    ghost use Rattle.qil_layout.specs.Layout.{address_of, bytes_of, fault_of};
    ghost use Rattle.qil_symbols.specs.Tables.{value_at};

    ghost Value = { Program A };

    ghost view = { λ image. image.program.now };

    ghost invariant = { λ image. ((x : List ℕ) → value_at image.names.values x ≡ address_of image.program.now x) × (image.bytes.items ≡ bytes_of image.program.now) × (fault_of image.program.now ≡ None) × (length image.program.now.funcs ≤ 1000) };
}

impl<'c, A: Allocator + Copy> Image<'c, A> {
    /// The image of a program, from its addresses and its data. Only a caller that has proved that these are the program's can
    /// make one.
    pub fn new(program: &'c Program<'c, A>, names: Firsts<'c, u64, A>, bytes: Vec<u8, A>) -> Self
        requires { ((x : List ℕ) → value_at names.values x ≡ address_of program.now x) × (bytes.items ≡ bytes_of program.now) × (fault_of program.now ≡ None) × (length program.now.funcs ≤ 1000) }
        ensures { result ≡ program.now }
    {
        Image {
            program,
            names,
            bytes,
        }
    }

    /// The address of a name, if the program defines it or it is built in.
    pub fn address(&self, name: &[u8]) -> Option<u64>
        ensures { result ≡ address_of self.now name.now }
    {
        self.names.get(name)
    }

    /// The bytes of the data, the first at 65,536; zeros stand between objects.
    pub fn bytes(&self) -> &[u8]
        ensures value { result.now ≡ bytes_of self.now }
        ensures few { length result.now ≤ 2 ^ 20 }
        ensures no_fault { fault_of self.now ≡ None }
    {
        self.bytes.as_slice()
    }

    fn lies(&self, name: &[u8], at: u64, address: u64) -> bool
        ensures { result ≡ lies self.now name.now at address }
    {
        if address != at {
            return false;
        }
        match self.address(name) {
            Some(found) => found == at,
            None => false,
        }
    }

    /// How many functions there are.
    fn func_count(&self) -> u64
        ensures count { result ≡ length self.now.funcs }
        ensures few { result ≤ 1000 }
    {
        self.program.funcs.as_slice().len() as u64
    }

    fn func_at(&self, address: u64) -> Option<u64>
        ensures value { result ≡ func_at self.now address }
        ensures few { IfSome result (λ i. i < 1000) }
    {
        if address < FUNC_BASE {
            return None;
        }
        let index = (address - FUNC_BASE) / FUNC_STRIDE;
        if (address - FUNC_BASE) % FUNC_STRIDE == 0 && index < self.func_count() {
            Some(index)
        } else {
            None
        }
    }

    /// The function that lies at an address. A built-in whose name the program defines lies nowhere.
    pub fn function_at(&self, address: u64) -> Option<Callee>
        ensures { result ≡ callee_at self.now address }
    {
        if self.lies(b"putchar", PUTCHAR, address) {
            return Some(Callee::PutChar);
        }
        if self.lies(b"puts", PUTS, address) {
            return Some(Callee::Puts);
        }
        if self.lies(b"exit", EXIT, address) {
            return Some(Callee::Exit);
        }
        match self.func_at(address) {
            Some(index) => Some(Callee::Defined(FuncId {
                index: index as u16,
            })),
            None => None,
        }
    }

    /// The name of a function of the program, without its sigil.
    pub fn name_of(&self, func: FuncId) -> Option<Name<'c>>
        ensures { result ≡ option_map (λ f. f.name) (slice_get self.now.funcs func.index) }
    {
        match self.program.funcs.as_slice().get(usize::from(func.index)) {
            Some(found) => Some(Name::new(found.name.bytes())),
            None => None,
        }
    }
}
