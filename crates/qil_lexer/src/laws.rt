//! Laws about cuts and strings, each the contract of a function that does nothing.

ghost use Rattle.std.specs.Prelude.{◌≡◌, ℕ, List, All};
ghost use Rattle.qil_lexer.specs.Shape.{HasShape, StringBytes};
ghost use Rattle.qil_lexer.specs.Cut.{line_of, Cuts, FailsAt, IsBackslash, IsShaped, TextFault, SameTokens};
ghost use Rattle.qil_lexer.specs.declared.error.LexCode.{LexCode};
ghost use Rattle.qil_lexer.specs.declared.error.LexCode.TheVariants.{L5};
ghost use Rattle.qil_lexer.specs.declared.token.Token.{Token};
ghost use Rattle.qil_lexer.specs.declared.token.TokenKind.TheVariants.{Quoted};

/// A text has one cut at most.
pub fn one_cut()
    ensures { (text : List ℕ) (ts us : List Token) → Cuts text ts → Cuts text us → SameTokens ts us }
{}

/// A text has one fault at most.
pub fn one_fault()
    ensures { (text : List ℕ) (c d : LexCode) (k l : ℕ) → TextFault text c k → TextFault text d l → (c ≡ d) × (k ≡ l) }
{}

/// The tokens of a cut have the shapes of their kinds, and their numbers are in range.
pub fn cut_shapes()
    ensures { (text : List ℕ) (ts : List Token) → Cuts text ts → All IsShaped ts }
{}

/// An `L5` gives the line of its backslash, which is also that of the string's opening quote.
pub fn escape_line()
    ensures { (text : List ℕ) (line : ℕ) (fault : FailsAt text L5 line)
        → (place : ℕ) × IsBackslash text fault.at place × (line ≡ line_of text place) }
{}

/// A string represents one list of bytes, and for no other.
pub fn one_string()
    ensures some { (text : List ℕ) → HasShape Quoted text → (values : List ℕ) × StringBytes text values }
    ensures one { (text v w : List ℕ) → StringBytes text v → StringBytes text w → v ≡ w }
{}
