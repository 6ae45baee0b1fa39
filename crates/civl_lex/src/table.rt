// Tables of texts.
ghost use Rattle.std.specs.Prelude.{◌≡◌};
ghost use Rattle.std.specs.List.{list_any};
ghost use Rattle.std.specs.Str.{bytes_eq};

/// Whether the text is one of the table's.
pub fn is_among(text: &[u8], table: &[&[u8]]) -> bool
    ensures { result ≡ list_any (λ entry. bytes_eq text.now entry.now) table.now }
{
    table.iter().any(|entry| text == *entry)
}
