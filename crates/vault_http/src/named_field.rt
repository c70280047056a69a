ghost use Rattle.std.specs.Prelude.{◌≡◌, length, map, All};
ghost use Rattle.httparse.specs.Spans.{IsHeaderWithin, header_bytes};
ghost use Rattle.vault_http.specs.Fields.{is_field_named, values_of};
ghost use Rattle.vault_http.specs.NamedField.{IsLone, and_lone};

use httparse::spans::{HeaderSpan, Span};

/// The fields with one name: none, one, or several, of which the first is kept.
#[derive(Clone, Copy, Debug)]
pub(crate) enum Lone {
    Absent,
    One(Span),
    Several(Span),
}

impl Lone {
    /// Takes in one more field, which may have the name.
    fn and(self, named: bool, value: Span) -> Lone
        ensures { result ≡ and_lone self named value }
    {
        if !named {
            return self;
        }
        match self {
            Lone::Absent => Lone::One(value),
            Lone::One(first) => Lone::Several(first),
            Lone::Several(first) => Lone::Several(first),
        }
    }
}

/// Whether a field has the name, letters of either case.
pub(crate) fn has_name(field: &[u8], name: &[u8]) -> bool
    ensures { result ≡ is_field_named name.now field.now }
{
    field.eq_ignore_ascii_case(name)
}

/// The value of the field with that name, where it is one.
pub(crate) fn lone_value(buf: &[u8], headers: &[HeaderSpan], name: &[u8]) -> Lone
    requires { All (IsHeaderWithin (length buf.now)) headers.now }
    ensures { IsLone buf.now (values_of name.now (map (header_bytes buf.now) headers.now)) result }
{
    let mut found = Lone::Absent;
    for header in headers {
        let named = has_name(header.name.of(buf), name);
        found = found.and(named, header.value);
    }
    found
}
