//! Why data can't be laid out.

ghost use Rattle.std.specs.Prelude.{◌≡◌};
ghost use Rattle.qil_layout.specs.Codes.{layout_code};

use std::fmt;

/// The code that is reported of a data object that can't be laid out.
#[derive(Clone, Copy, Debug)]
pub enum LayoutCode {
    /// The data has more than 2^20 bytes.
    Y1,
    /// The alignment is no power of two from 1 to 4096.
    Y2,
}

impl LayoutCode {
    /// The code that is reported.
    pub fn as_str(self) -> &'static str
        ensures { result.now ≡ layout_code self }
    {
        match self {
            LayoutCode::Y1 => "Y1",
            LayoutCode::Y2 => "Y2",
        }
    }
}

impl fmt::Display for LayoutCode {
    ghost use Rattle.std.specs.Prelude.{Some};
    ghost use Rattle.qil_layout.specs.Codes.{layout_code};

    ghost output = { λ code. Some (layout_code code) };

    fn fmt<W: fmt::Write>(&self, f: &mut fmt::Formatter<W>) -> fmt::Result {
        f.write_str(self.as_str())
    }
}
