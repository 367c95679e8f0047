// A request: a kind, a space and a decimal number.
ghost use Rattle.std.specs.Prelude.{◌+◌, ◌≤◌, ◌<◌, length};
ghost use Rattle.bench.specs.Kind.{Decodes};

// What is timed.
#[derive(Clone, Copy, Debug, PartialEq, Eq)]
pub enum Kind {
    Add,
    Draw,
    Exponent,
    Grid,
    Judged,
    Log,
    Nested,
    Probe,
    Root,
    Stream,
    Tree,
    Update,
    Weighted,
}

// A letter that is no kind's.
#[derive(Clone, Copy, Debug, PartialEq, Eq)]
pub struct UnknownKind(pub u8);

impl TryFrom<u8> for Kind {
    type Error = UnknownKind;

    ghost try_from_gives = { Decodes };

    fn try_from(letter: u8) -> Result<Self, UnknownKind> {
        match letter {
            b'a' => Ok(Kind::Add),
            b'd' => Ok(Kind::Draw),
            b'e' => Ok(Kind::Exponent),
            b'g' => Ok(Kind::Grid),
            b'j' => Ok(Kind::Judged),
            b'l' => Ok(Kind::Log),
            b'n' => Ok(Kind::Nested),
            b'p' => Ok(Kind::Probe),
            b'r' => Ok(Kind::Root),
            b's' => Ok(Kind::Stream),
            b't' => Ok(Kind::Tree),
            b'u' => Ok(Kind::Update),
            b'w' => Ok(Kind::Weighted),
            _ => Err(UnknownKind(letter)),
        }
    }
}

// The kind that the request's first letter names.
pub fn kind_of(text: &[u8]) -> Option<Kind> {
    Kind::try_from(*text.first()?).ok()
}

// The number behind the first space, 0 where there is none; digits past the eighteenth are not read.
pub fn count(text: &[u8]) -> u64 {
    let mut value: u64 = 0;
    for glyph in &text[behind_space(text)..] {
        if !glyph.is_ascii_digit() {
            return value;
        }
        if 99999999999999999 < value {
            return value;
        }
        value = value * 10 + digit(*glyph);
    }
    value
}

// Where the first space ends; the text's end where there is none.
fn behind_space(text: &[u8]) -> usize
    ensures { result ≤ length text.now }
{
    match text.iter().position(|glyph| *glyph == b' ') {
        Some(before) => before + 1,
        None => text.len(),
    }
}

// A digit's value.
fn digit(glyph: u8) -> u64
    ensures { result < 10 }
{
    u64::from(glyph) % 16 % 10
}
