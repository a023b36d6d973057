//! The words of a line, one after the other.

ghost use Rattle.std.specs.Prelude.{◌≡◌, ◌∷◌, [], ◌≤◌, MatchOption, length};
ghost use Rattle.std.specs.List.{prefix_len};
ghost use Rattle.qil_commands.specs.Words.{is_spacing, is_word_byte, words_of};

fn is_spacing(b: u8) -> bool
    ensures { result ≡ is_spacing b }
{
    b == b' ' || b == b'\t' || b == b'\r'
}

fn spacing_len(bytes: &[u8]) -> usize
    ensures is { result ≡ prefix_len is_spacing bytes.now }
    ensures within { result ≤ length bytes.now }
{
    bytes.iter().take_while(|b| is_spacing(**b)).count()
}

fn word_len(bytes: &[u8]) -> usize
    ensures is { result ≡ prefix_len is_word_byte bytes.now }
    ensures within { result ≤ length bytes.now }
{
    bytes.iter().take_while(|b| !is_spacing(**b)).count()
}

/// The words of a line that weren't taken yet.
#[derive(Drop)]
pub struct Words<'a> {
    pub rest: &'a [u8],
}

impl<'a> Words<'a> {
    /// Takes the next word.
    pub fn next(&mut self) -> Option<&'a [u8]>
        ensures { MatchOption result ((words_of self.old.rest.now ≡ []) × (words_of self.new.rest.now ≡ []))
            (λ word. words_of self.old.rest.now ≡ word.now ∷ words_of self.new.rest.now) }
    {
        let line = &self.rest[spacing_len(self.rest)..];
        let len = word_len(line);
        if len == 0 {
            return None;
        }
        self.rest = &line[len..];
        Some(&line[..len])
    }
}
