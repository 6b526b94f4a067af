//! Splits bytes at a separator.
ghost use Rattle.std.specs.Prelude.{◌≡◌, MatchOption, Some, None};
ghost use Rattle.code_file.specs.inner.Spelled.{cut};

/// Splits bytes at the first `mark`, which is in neither part. `None` if there is no `mark`.
pub fn cut(bytes: &[u8], mark: u8) -> Option<(&[u8], &[u8])>
    ensures { MatchOption result (cut mark bytes.now ≡ None) (λ p. cut mark bytes.now ≡ Some (p.0.now, p.1.now)) }
{
    for k in 0..bytes.len() {
        if bytes[k] == mark {
            return Some((&bytes[..k], &bytes[k + 1..]));
        }
    }
    None
}
