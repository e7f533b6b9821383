// Words and numbers at the front of a slice.
ghost use Rattle.std.specs.Prelude.{◌≡◌, ◌∷◌, [], ◌<◌, length, drop};
ghost use Rattle.forms.specs.Read as spec;

// Whether `s` begins with `w`.
#[tactic(auto, using(crate::proofs::Words::starts_same))]
pub fn starts(s: &[u8], w: &[u8]) -> bool
    ensures { result ≡ spec.starts w.now s.now }
{
    s.starts_with(w)
}

// Whether the byte `b` stands at `at`.
#[tactic(auto, using(crate::proofs::Loops::byte_here, crate::proofs::Loops::byte_past))]
pub fn byte_at(s: &[u8], at: usize, b: u8) -> bool
    ensures { result ≡ spec.starts (b ∷ []) (drop at s.now) }
{
    at < s.len() && b == s[at]
}

// Whether `c` is a decimal digit.
fn is_digit(c: u8) -> bool
    ensures { result ≡ spec.is_digit c }
{
    c.is_ascii_digit()
}

// A byte's value: by a call, it needs no bound at the place that asks.
fn wide(c: u8) -> u64
    ensures { result ≡ c }
{
    u64::from(c)
}

// The number at the front of `s` whose first digit has the value `first`, and how many bytes it takes.
#[tactic(auto, using(crate::proofs::Loops::scanned_more, crate::proofs::Loops::scanned_long, crate::proofs::Loops::scanned_other, crate::proofs::Loops::scanned_all))]
fn number_after(s: &[u8], first: u64) -> Option<(u64, usize)>
    requires { (first < 10) × (0 < length s.now) }
    ensures { result ≡ spec.scan 10 first 1 (drop 1 s.now) }
{
    let mut value = first;
    for i in 1..s.len() {
        let c = s[i];
        if is_digit(c) {
            if i < 10 {
                value = value * 10 + (wide(c) - 48);
            } else {
                return None;
            }
        } else {
            return Some((value, i));
        }
    }
    Some((value, s.len()))
}

// The number at the front of `s`, and how many bytes it takes.
#[tactic(auto, using(crate::proofs::Loops::number_zero))]
pub fn read_number(s: &[u8]) -> Option<(u64, usize)>
    ensures { result ≡ spec.number 10 s.now }
{
    if s.len() == 0 {
        return None;
    }
    let c = s[0];
    if c == 48 {
        return Some((0, 1));
    }
    if is_digit(c) {
        number_after(s, wide(c) - 48)
    } else {
        None
    }
}
