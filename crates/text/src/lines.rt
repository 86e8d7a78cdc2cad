// A text, line by line.
ghost use Rattle.std.specs.Prelude.{◌≡◌};
ghost use Rattle.std.specs.Option.{option_map};
ghost use Rattle.text.specs.Split.{first_line};

use crate::split::split_first;

// The first line, without its byte 10, and the bytes after it.
pub fn next_line(text: &[u8]) -> Option<(&[u8], &[u8])>
    ensures { option_map (λ x. (x.0.now, x.1.now)) result ≡ first_line text.now }
{
    let (line, rest) = split_first(text, 10);
    Some((line, rest?))
}
