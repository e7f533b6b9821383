// Texts added to an output, one behind the other.
ghost use Rattle.std.specs.Prelude.{[], ◌∷◌, ◌+◌, ◌≤◌, ◌<◌, ◌++◌, length};
ghost use Rattle.forms.specs.Bytes.{decimal};
ghost use Rattle.forms.specs.Text.{list_text};
ghost use Rattle.forms.specs.Request.{credentials_from};
ghost use Rattle.forms.specs.Answer.{line_text};
ghost use Rattle.answers.specs.Put.{Put, Adds};

// `n` in decimal at `at`: what stands before its last digit, then that digit; answers the place behind them. It is lent the slice and told
// the place, and not the output that has both: so the place stays in a register, here and where an output's texts follow one another.
fn put_number(out: &mut [u8], at: usize, n: u64) -> usize
    requires { at + length (decimal n) ≤ length out.old }
    ensures { Put out.old at (decimal n) out.new result }
{
    if n < 10 {
        out[at] = b'0' + n as u8;
        return at + 1;
    }
    let last = put_number(out, at, n / 10);
    out[last] = b'0' + (n % 10) as u8;
    last + 1
}

// A lent output, and the place of its next text. What adds a text has made sure of the room.
#[derive(Drop)]
pub struct Output<'a> {
    pub out: &'a mut [u8],
    pub at: usize,
}

impl<'a> Output<'a> {
    // A word's bytes.
    pub(crate) fn word(&mut self, word: &[u8])
        requires { self.old.at + length word.now ≤ length self.old.out.now }
        ensures { Adds self.old word.now self.new }
    {
        for byte in word {
            self.byte(*byte);
        }
    }

    // One byte.
    fn byte(&mut self, byte: u8)
        requires { self.old.at < length self.old.out.now }
        ensures { Adds self.old (byte ∷ []) self.new }
    {
        self.out[self.at] = byte;
        self.at += 1;
    }

    // `n` in decimal.
    pub(crate) fn number(&mut self, n: u64)
        requires { self.old.at + length (decimal n) ≤ length self.old.out.now }
        ensures { Adds self.old (decimal n) self.new }
    {
        self.at = put_number(self.out, self.at, n);
    }

    // A word, then a number right behind it.
    pub(crate) fn numbered(&mut self, word: &[u8], n: u64)
        requires { self.old.at + length (word.now ++ decimal n) ≤ length self.old.out.now }
        ensures { Adds self.old (word.now ++ decimal n) self.new }
    {
        self.word(word);
        self.number(n);
    }

    // A word, one number and a newline.
    #[tactic(auto, unfolding(forms::specs::Text::list_text))]
    pub(crate) fn one(&mut self, word: &[u8], n: u64)
        requires { self.old.at + length (line_text word.now (n ∷ [])) ≤ length self.old.out.now }
        ensures { Adds self.old (line_text word.now (n ∷ [])) self.new }
    {
        self.word(word);
        self.numbered(b" ", n);
        self.word(b")\n");
    }

    // A word, two numbers and a newline.
    #[tactic(auto, unfolding(forms::specs::Text::list_text))]
    pub(crate) fn two(&mut self, word: &[u8], a: u64, b: u64)
        requires { self.old.at + length (line_text word.now (a ∷ b ∷ [])) ≤ length self.old.out.now }
        ensures { Adds self.old (line_text word.now (a ∷ b ∷ [])) self.new }
    {
        self.word(word);
        self.numbered(b" ", a);
        self.one(b"", b);
    }

    // A word, three numbers and a newline.
    #[tactic(auto, unfolding(forms::specs::Text::list_text))]
    pub(crate) fn three(&mut self, word: &[u8], a: u64, b: u64, c: u64)
        requires { self.old.at + length (line_text word.now (a ∷ b ∷ c ∷ [])) ≤ length self.old.out.now }
        ensures { Adds self.old (line_text word.now (a ∷ b ∷ c ∷ [])) self.new }
    {
        self.word(word);
        self.numbered(b" ", a);
        self.numbered(b" ", b);
        self.one(b"", c);
    }

    // A word, then the credentials that are held, rising, each behind a space; then a closing bracket. These take at most 183 bytes
    // behind the word.
    pub(crate) fn credentials(&mut self, word: &[u8], held: &[bool; 64])
        requires { self.old.at + length word.now + 183 ≤ length self.old.out.now }
        ensures added { Adds self.old (word.now ++ list_text (credentials_from 0 held.now)) self.new }
        ensures few { self.new.at ≤ self.old.at + length word.now + 183 }
    {
        self.word(word);
        for (n, is_held) in held.iter().enumerate() {
            if *is_held {
                self.numbered(b" ", n as u64);
            }
        }
        self.word(b")");
    }
}
