// Bytes parted by a byte.
ghost use Rattle.std.specs.Prelude.{◌≡◌, ◌==◌, position};
ghost use Rattle.std.specs.Option.{option_map};
ghost use Rattle.text.specs.Split.{before, after as rest_after, SplitLaws};

// The place of the first byte `at`.
fn place_of(bytes: &[u8], at: u8) -> Option<usize>
    ensures { result ≡ position (λ b. b == at) bytes.now }
{
    bytes.iter().position(|b| *b == at)
}

// The bytes before the first byte `at`, and those after it if there is one.
pub fn split_first(bytes: &[u8], at: u8) -> (&[u8], Option<&[u8]>)
    ensures first { result.0.now ≡ before at bytes.now }
    ensures after { option_map (λ x. x.now) result.1 ≡ rest_after at bytes.now }
{
    match place_of(bytes, at) {
        Some(i) => (&bytes[..i], Some(&bytes[i + 1..])),
        None => (bytes, None),
    }
}

// Bytes are split at the first byte `at`, and nowhere else.
pub fn splits_keep_their_laws()
    ensures { SplitLaws }
{}
