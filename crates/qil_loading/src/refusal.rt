//! Why a program is refused, and the line that says so.

ghost use Rattle.std.specs.Prelude.{◌-◌, ◌^◌, ◌<◌};
ghost use Rattle.qil_streams.specs.Device.{HasPut};
ghost use Rattle.qil_loading.specs.Lines.{refused_at, refused_line};

use qil_fragments::{Fragment, put_fragments};
use qil_layout::LayoutCode;
use qil_lexer::LexCode;
use qil_parser::ParseCode;
use qil_rules::Rule;
use qil_semantics::StartFault;
use qil_streams::{Put, PutError};

/// Why a program is refused, in the order in which the reasons are looked for.
#[derive(Clone, Copy)]
pub enum Refusal {
    /// The text has no tokens.
    Text { code: LexCode, line: u32 },
    /// The tokens are no program's.
    Tokens { code: ParseCode, line: u32 },
    /// The program breaks a rule.
    Rule { rule: Rule, line: u32 },
    /// The data can't be laid out.
    Layout { code: LayoutCode, line: u32 },
    /// The run does not start.
    Start(StartFault),
}

fn put_refused_at<P: Put>(out: &mut P, code: &[u8], line: u32) -> Result<(), PutError>
    requires { P.stops out.old < 2 ^ 64 - 1 }
    ensures { HasPut P.written P.stops P.device result out.old out.new (refused_at code.now line) }
{
    put_fragments(
        out,
        &[
            Fragment::Bytes(b"refused: "),
            Fragment::Bytes(code),
            Fragment::Bytes(b" line "),
            Fragment::Number(u64::from(line)),
            Fragment::Bytes(b"\n"),
        ],
    )
}

/// Puts the line of a refusal.
pub fn put_refusal_line<P: Put>(out: &mut P, refusal: Refusal) -> Result<(), PutError>
    requires { P.stops out.old < 2 ^ 64 - 1 }
    ensures { HasPut P.written P.stops P.device result out.old out.new (refused_line refusal) }
{
    match refusal {
        Refusal::Text { code, line } => put_refused_at(out, code.as_str().as_bytes(), line),
        Refusal::Tokens { code, line } => put_refused_at(out, code.as_str().as_bytes(), line),
        Refusal::Rule { rule, line } => put_refused_at(out, rule.as_str().as_bytes(), line),
        Refusal::Layout { code, line } => put_refused_at(out, code.as_str().as_bytes(), line),
        Refusal::Start(fault) => put_fragments(
            out,
            &[
                Fragment::Bytes(b"refused: "),
                Fragment::Bytes(fault.as_str().as_bytes()),
                Fragment::Bytes(b"\n"),
            ],
        ),
    }
}
