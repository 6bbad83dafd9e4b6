// Lines as text.
ghost use Rattle.std.specs.Prelude.{◌≡◌, ◌+◌, ◌≤◌, [], ◌∷◌, ◌++◌, length};
ghost use Rattle.arrayvec.specs.ArrayString.{array_string_len};
ghost use Rattle.nomination.specs.LineTexts.{text_held};
ghost use Rattle.nomination.specs.Texts.{detail_fields, record_fields, parted, line_text};
ghost use Rattle.nomination.specs.ValuesHeld.{detail_said, values_said};
ghost use Rattle.nomination.specs.Writing.{placed};

use crate::detail::Detail;
use crate::field_text::{Text, push_amount, push_code, push_digits, push_flag, push_plain};
use crate::line_text::LineText;
use crate::longest::LONGEST_LINE;
use crate::values::Values;

impl LineText {
    /// The line that says these values.
    #[tactic(auto, using(crate::proofs::FieldTexting::line_short))]
    pub fn of(values: Values) -> LineText
        ensures { text_held result ≡ line_text (values_said values) }
    {
        let mut text = Text::new();
        push_fields(&mut text, values);
        text.push('\n');
        LineText { text }
    }

    /// Its length.
    pub fn len(&self) -> usize
        ensures { result ≡ length (text_held self.now) }
    {
        self.text.len()
    }

    /// Writes it into a buffer at a place, and answers its length; or, where it does not fit there, writes nothing.
    #[tactic(auto, using(crate::proofs::Overlaying::over_mid))]
    pub fn write(&self, out: &mut [u8], at: usize) -> Option<usize>
        ensures { (out.new, result) ≡ placed (text_held self.now) out.old at }
    {
        let text = self.text.as_str().as_bytes();
        let end = at.checked_add(text.len())?;
        // After `out.get_mut(at..end)?` it is not proved that the buffer is as it was where the text does not fit.
        if end > out.len() {
            return None;
        }
        out[at..end].copy_from_slice(text);
        Some(text.len())
    }
}

/// Appends the fields of a record, with a comma between each two.
#[tactic(auto, using(crate::proofs::FieldTexting::date_digits))]
fn push_fields(text: &mut Text, values: Values)
    requires { array_string_len text.old + length (parted (record_fields (values_said values))) ≤ LONGEST_LINE }
    ensures { text.new.bytes ≡ text.old.bytes ++ parted (record_fields (values_said values)) }
{
    match values {
        Values::Heading(header) => {
            text.push_str("H,IANS,");
            push_digits(text, 3, u64::from(header.version));
            push_code(text, header.filer);
            text.push(',');
            push_digits(text, 8, u64::from(header.date));
        }
        Values::Trading(detail, flag) => {
            text.push_str("D1");
            push_detail(text, detail);
            push_flag(text, flag);
        }
        Values::Matching(detail) => {
            text.push_str("D2");
            push_detail(text, detail);
        }
    }
}

/// Appends the fields that a trade and a match share behind the first, each behind a comma.
fn push_detail(text: &mut Text, detail: Detail)
    requires { array_string_len text.old + length (44 ∷ parted (detail_fields (detail_said detail) [])) ≤ LONGEST_LINE }
    ensures { text.new.bytes ≡ text.old.bytes ++ (44 ∷ parted (detail_fields (detail_said detail) [])) }
{
    text.push(',');
    push_plain(text, u64::from(detail.period));
    push_code(text, detail.north);
    push_code(text, detail.south);
    push_amount(text, detail.ns);
    push_amount(text, detail.sn);
}
