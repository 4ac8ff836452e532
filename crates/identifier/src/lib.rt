// Identifiers, 1 to 32 letters, digits or underscores: each function is proved to answer what
// specs/Bed.antt of the crate palindromes says.
#![tactic(auto)]

ghost use Rattle.std.specs.Prelude.{◌≡◌};
ghost use Rattle.palindromes.specs.Bed.{is_identifier_byte, is_identifier};

// Whether the byte may stand in an identifier.
#[tactic(auto, unfolding(palindromes::specs::Bed::is_identifier_byte))]
pub fn is_identifier_byte(b: u8) -> bool
    ensures { result ≡ is_identifier_byte b }
{
    b.is_ascii_alphanumeric() || b == b'_'
}

// Whether the bytes are an identifier.
pub fn is_identifier(name: &[u8]) -> bool
    ensures { result ≡ is_identifier name.now }
{
    (1..=32).contains(&name.len()) && name.iter().all(|b| is_identifier_byte(*b))
}
