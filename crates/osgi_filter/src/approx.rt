//! Texts compared without white space and ASCII case.

ghost use Rattle.std.specs.Prelude.{◌≡◌, ◌<◌, ◌∷◌, [], length, IfSome, MatchOption};
ghost use Rattle.std.specs.Str.{bytes_eq};
ghost use Rattle.osgi_model.specs.Matching.{approx_form};

/// The first byte that is no white space, without its case, and what follows it.
fn next(bytes: &[u8]) -> Option<(u8, &[u8])>
    ensures next { MatchOption result (approx_form bytes.now ≡ []) (λ next. approx_form bytes.now ≡ next.0 ∷ approx_form next.1.now) }
    ensures less { IfSome result (λ next. length next.1.now < length bytes.now) }
{
    let mut rest = bytes;
    while let [b, remainder @ ..] = rest {
        if !b.is_ascii_whitespace() {
            return Some((b.to_ascii_lowercase(), remainder));
        }
        rest = remainder;
    }
    None
}

/// Whether the texts are the same but for white space and ASCII case.
pub fn is_approx(a: &[u8], b: &[u8]) -> bool
    ensures approx { result ≡ bytes_eq (approx_form a.now) (approx_form b.now) }
{
    let mut left = a;
    let mut right = b;
    while let Some((x, remainder)) = next(left) {
        match next(right) {
            Some((y, others)) if x == y => right = others,
            _ => return false,
        }
        left = remainder;
    }
    next(right).is_none()
}
