// The kind of a record, as the first field of its line names it.
ghost use Rattle.std.specs.Prelude.{◌≡◌};
ghost use Rattle.nomination.specs.Kinds.{kind_digit};
ghost use Rattle.nomination.specs.Records.{is_header, is_detail};

use book::FiledKind;

/// The digit behind the D of a trade or a match.
pub(crate) fn kind_digit(kind: FiledKind) -> u8
    ensures { result ≡ kind_digit kind }
{
    match kind {
        FiledKind::Trade => b'1',
        FiledKind::Match => b'2',
    }
}

/// Whether the first field is that of a header.
pub(crate) fn is_header(first: &[u8]) -> bool
    ensures { result ≡ is_header first.now }
{
    first == b"H".as_slice()
}

/// Whether the first field is that of a trade or a match.
pub(crate) fn is_detail(first: &[u8], kind: FiledKind) -> bool
    ensures { result ≡ is_detail (kind_digit kind) first.now }
{
    first == [b'D', kind_digit(kind)].as_slice()
}
