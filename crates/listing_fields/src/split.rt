// Lines and their fields.
ghost use Rattle.std.specs.Prelude.{◌≡◌, length};
ghost use Rattle.listing_fields.specs.Numbers.{fields_of, field};

// The byte between two fields, and the one behind a line.
const TAB: u8 = b'\t';

pub const NEWLINE: u8 = b'\n';

// How many fields a line has.
pub fn count(l: &[u8]) -> usize
    ensures { result ≡ length (fields_of l.now) }
{
    l.split(|x| *x == TAB).count()
}

// Field i of a line, from 0; nothing where it has fewer.
pub fn field(l: &[u8], i: usize) -> &[u8]
    ensures { result.now ≡ field i (fields_of l.now) }
{
    l.split(|x| *x == TAB).nth(i).unwrap_or(&l[..0])
}
