ghost use Rattle.std.specs.Prelude.{◌≡◌, IfOk, OnOk, [], ◌∷◌, false, string_bytes};
ghost use Rattle.std.specs.List.{flat_map};
ghost use Rattle.toml.specs.Data.{boolean, integer};
ghost use Rattle.toml.specs.Text.{IsValueText};
ghost use Rattle.toml.specs.View.{view};
ghost use Rattle.state_file.specs.FileText.{Adds, AddsField, IsFileText, credential_lines, dated, duration_text as duration_words, field, header_lines, moment_lines, need_lines, number_lines, parent_lines, quoted, reissued_lines, renewable_lines, row_lines, some_lines, span_lines, span_lines_if, terms_lines, text_lines, told_lines};

use base_moment::{Moment, Span, Text, date_text};
use plan_forest::Kind;
use state_changes::Row;
use std::alloc::{AllocError, Global};
use std::fmt::{Display, Formatter};
use toml::Value;
use vault_inventory::{Key, Need, Terms};

/// How moments and durations are written.
#[derive(Clone, Copy)]
pub(crate) enum Form {
    /// As people write them: dates, and numbers with a unit.
    Words,
    /// In whole seconds.
    Seconds,
}

/// The text of a file: its margin and the maximum TTL of the system, where they are written, and a table for each row, in their
/// order. The only error is out of memory.
#[tactic(auto, using(crate::proofs::Printing::adds_both), unfolding(crate::specs::FileText::IsFileText, crate::specs::FileText::file_lines))]
pub(crate) fn file_text(
    alloc: Global,
    form: Form,
    margin: Option<Span>,
    system_max: Option<Span>,
    rows: &[Row],
) -> Result<String, AllocError>
    ensures { IfOk result (λ text. IsFileText form margin system_max rows.now (string_bytes text)) }
{
    let mut page = Page {
        alloc,
        text: String::new(alloc),
    };
    page.put_if(form, Key::Margin, margin)?;
    page.put_if(form, Key::SystemMax, system_max)?;
    page.put_rows(form, rows)?;
    Ok(page.text)
}

/// The text of a file while it is written. The only error of its calls is out of memory.
#[derive(Drop)]
struct Page {
    alloc: Global,
    text: String,
}

impl Page {
    #[tactic(auto, using(crate::proofs::Printing::adds_none, crate::proofs::Printing::adds_row))]
    fn put_rows(&mut self, form: Form, rows: &[Row]) -> Result<(), AllocError>
        ensures { OnOk result (Adds (flat_map (row_lines form) rows.now) (string_bytes self.old.text) (string_bytes self.new.text)) }
    {
        for row in rows {
            self.put_row(form, row)?;
        }
        Ok(())
    }

    // The table of an entry. What stands for an absent key is left out.
    #[tactic(auto, using(crate::proofs::Printing::adds_both), unfolding(crate::specs::FileText::row_lines))]
    fn put_row(&mut self, form: Form, row: &Row) -> Result<(), AllocError>
        ensures { OnOk result (Adds (row_lines form row.now) (string_bytes self.old.text) (string_bytes self.new.text)) }
    {
        self.put_header(row)?;
        self.put_text(Key::Name, &row.name)?;
        self.put_parent(row)?;
        self.put_credential(row)?;
        self.put_told(form, row)?;
        self.put_renewable(row)?;
        self.put_terms(form, &row.terms)?;
        self.put_need(form, &row.need)
    }

    #[tactic(auto, using(crate::proofs::Printing::adds_header), unfolding(crate::specs::FileText::header_lines))]
    fn put_header(&mut self, row: &Row) -> Result<(), AllocError>
        ensures { OnOk result (Adds (header_lines row.now) (string_bytes self.old.text) (string_bytes self.new.text)) }
    {
        let key = if row.kind.is_lease() {
            Key::Lease
        } else {
            Key::Token
        };
        let gap = if self.text.is_empty() { "" } else { "\n" };
        write!(self.text, "{gap}[[{}]]\n", key.text())
    }

    #[tactic(auto, using(crate::proofs::Printing::adds_none), unfolding(crate::specs::FileText::parent_lines))]
    fn put_parent(&mut self, row: &Row) -> Result<(), AllocError>
        ensures { OnOk result (Adds (parent_lines row.now) (string_bytes self.old.text) (string_bytes self.new.text)) }
    {
        let key = if row.kind.is_lease() {
            Key::Token
        } else {
            Key::Parent
        };
        match &row.parent {
            None => Ok(()),
            Some(parent) => self.put_text(key, parent),
        }
    }

    // The path of the file that holds the credential, or the credential itself.
    #[tactic(auto, unfolding(crate::specs::FileText::credential_lines))]
    fn put_credential(&mut self, row: &Row) -> Result<(), AllocError>
        ensures { OnOk result (Adds (credential_lines row.now) (string_bytes self.old.text) (string_bytes self.new.text)) }
    {
        let (key, file_key) = if row.kind.is_lease() {
            (Key::LeaseId, Key::LeaseIdFile)
        } else {
            (Key::Secret, Key::SecretFile)
        };
        match &row.file {
            None => self.put_text(key, &row.credential),
            Some(path) => self.put_text(file_key, path),
        }
    }

    #[tactic(auto, using(crate::proofs::Printing::adds_none, crate::proofs::Printing::adds_both), unfolding(crate::specs::FileText::told_lines))]
    fn put_told(&mut self, form: Form, row: &Row) -> Result<(), AllocError>
        ensures { OnOk result (Adds (told_lines form row.now) (string_bytes self.old.text) (string_bytes self.new.text)) }
    {
        if !row.is_told {
            return Ok(());
        }
        self.put_moment(form, Key::Issued, row.terms.issued.get())?;
        self.put_moment(form, Key::End, row.end)
    }

    #[tactic(auto, using(crate::proofs::Printing::adds_none, crate::proofs::Printing::adds_flag), unfolding(crate::specs::FileText::renewable_lines))]
    fn put_renewable(&mut self, row: &Row) -> Result<(), AllocError>
        ensures { OnOk result (Adds (renewable_lines row.now) (string_bytes self.old.text) (string_bytes self.new.text)) }
    {
        if row.renewable {
            return Ok(());
        }
        self.put_flag(Key::Renewable, false)
    }

    #[tactic(auto, using(crate::proofs::Printing::adds_both), unfolding(crate::specs::FileText::terms_lines))]
    fn put_terms(&mut self, form: Form, terms: &Terms) -> Result<(), AllocError>
        ensures { OnOk result (Adds (terms_lines form terms.now) (string_bytes self.old.text) (string_bytes self.new.text)) }
    {
        self.put_if(form, Key::Increment, terms.increment)?;
        self.put_some(form, Key::Period, terms.period)?;
        self.put_some(form, Key::MaxTtl, terms.max_ttl)?;
        self.put_some(form, Key::ExplicitMaxTtl, terms.explicit_max)?;
        self.put_reissued(terms)
    }

    #[tactic(auto, using(crate::proofs::Printing::adds_none, crate::proofs::Printing::adds_flag), unfolding(crate::specs::FileText::reissued_lines))]
    fn put_reissued(&mut self, terms: &Terms) -> Result<(), AllocError>
        ensures { OnOk result (Adds (reissued_lines terms.now) (string_bytes self.old.text) (string_bytes self.new.text)) }
    {
        if !terms.reissued {
            return Ok(());
        }
        self.put_flag(Key::Reissued, true)
    }

    // The moment 0 is no need, and stands for an absent key.
    #[tactic(auto, using(crate::proofs::Printing::adds_none), unfolding(crate::specs::FileText::need_lines))]
    fn put_need(&mut self, form: Form, need: &Need) -> Result<(), AllocError>
        ensures { OnOk result (Adds (need_lines form need.now) (string_bytes self.old.text) (string_bytes self.new.text)) }
    {
        match need {
            Need::Until(moment) if moment.get() == 0 => Ok(()),
            Need::Until(moment) => self.put_moment(form, Key::Need, moment.get()),
            Need::Always => self.put_str(Key::Need, "always"),
        }
    }

    // A text that is no UTF-8 is left out.
    #[tactic(auto, using(crate::proofs::Words::text_in, crate::proofs::Words::text_out))]
    fn put_text(&mut self, key: Key, text: &Text) -> Result<(), AllocError>
        ensures { OnOk result (Adds (text_lines key text.now) (string_bytes self.old.text) (string_bytes self.new.text)) }
    {
        let Ok(text) = std::str::from_utf8(text.list()) else {
            return Ok(());
        };
        self.put_str(key, text)
    }

    // A moment past the last date is a number in either form.
    #[tactic(auto, using(crate::proofs::Words::moment_in, crate::proofs::Words::moment_seconds, crate::proofs::Words::moment_past))]
    fn put_moment(&mut self, form: Form, key: Key, seconds: u64) -> Result<(), AllocError>
        ensures { OnOk result (Adds (moment_lines form key seconds) (string_bytes self.old.text) (string_bytes self.new.text)) }
    {
        match (form, Moment::new(seconds)) {
            (Form::Words, Some(moment)) => self.put_date(key, moment),
            _ => self.put_number(key, seconds),
        }
    }

    #[tactic(auto, using(crate::proofs::Words::date_in))]
    fn put_date(&mut self, key: Key, moment: Moment) -> Result<(), AllocError>
        ensures { OnOk result (Adds (dated key moment ∷ []) (string_bytes self.old.text) (string_bytes self.new.text)) }
    {
        match date_text(self.alloc, moment) {
            Ok(date) => self.put_text(key, &date),
            Err(_) => Err(AllocError),
        }
    }

    #[tactic(auto, using(crate::proofs::Printing::adds_none), unfolding(crate::specs::FileText::span_lines_if))]
    fn put_if(&mut self, form: Form, key: Key, span: Option<Span>) -> Result<(), AllocError>
        ensures { OnOk result (Adds (span_lines_if form key span) (string_bytes self.old.text) (string_bytes self.new.text)) }
    {
        match span {
            None => Ok(()),
            Some(span) => self.put_span(form, key, span),
        }
    }

    // The duration 0 stands for an absent key.
    #[tactic(auto, using(crate::proofs::Printing::adds_none), unfolding(crate::specs::FileText::some_lines))]
    fn put_some(&mut self, form: Form, key: Key, span: Span) -> Result<(), AllocError>
        ensures { OnOk result (Adds (some_lines form key span) (string_bytes self.old.text) (string_bytes self.new.text)) }
    {
        if span == 0 {
            return Ok(());
        }
        self.put_span(form, key, span)
    }

    #[tactic(auto, unfolding(crate::specs::FileText::span_lines))]
    fn put_span(&mut self, form: Form, key: Key, span: Span) -> Result<(), AllocError>
        ensures { OnOk result (Adds (span_lines form key span) (string_bytes self.old.text) (string_bytes self.new.text)) }
    {
        match form {
            Form::Words => {
                let duration = duration_text(self.alloc, span)?;
                self.put_str(key, duration.as_str())
            }
            Form::Seconds => self.put_number(key, span as u64),
        }
    }

    // A number over the greatest of TOML is left out; no row that a table writes has one.
    #[tactic(auto, using(crate::proofs::Words::number_in, crate::proofs::Words::number_out))]
    fn put_number(&mut self, key: Key, number: u64) -> Result<(), AllocError>
        ensures { OnOk result (Adds (number_lines key number) (string_bytes self.old.text) (string_bytes self.new.text)) }
    {
        if number > i64::MAX as u64 {
            return Ok(());
        }
        self.put_integer(key, number as i64)
    }

    #[tactic(auto, using(crate::proofs::Printing::adds_quoted))]
    fn put_str(&mut self, key: Key, text: &str) -> Result<(), AllocError>
        ensures { OnOk result (Adds (field key (quoted text.now) ∷ []) (string_bytes self.old.text) (string_bytes self.new.text)) }
    {
        let value = Value::string(self.alloc, text)?;
        self.put(key, &value)
    }

    fn put_flag(&mut self, key: Key, is: bool) -> Result<(), AllocError>
        ensures { OnOk result (AddsField key (boolean is) (string_bytes self.old.text) (string_bytes self.new.text)) }
    {
        self.put(key, &Value::Boolean(is))
    }

    fn put_integer(&mut self, key: Key, number: i64) -> Result<(), AllocError>
        ensures { OnOk result (AddsField key (integer number) (string_bytes self.old.text) (string_bytes self.new.text)) }
    {
        self.put(key, &Value::Integer(number))
    }

    #[tactic(auto, unfolding(crate::specs::FileText::AddsField))]
    fn put(&mut self, key: Key, value: &Value) -> Result<(), AllocError>
        ensures { OnOk result (AddsField key (view value.now) (string_bytes self.old.text) (string_bytes self.new.text)) }
    {
        let value = value_text(self.alloc, value)?;
        write!(self.text, "{} = {value}\n", key.text())
    }
}

// A value as it stands on the right of `=`.
fn value_text(alloc: Global, value: &Value) -> Result<String, AllocError>
    ensures { IfOk result (λ text. IsValueText false (view value.now) (string_bytes text)) }
{
    let mut f = Formatter::new(String::new(alloc));
    match value.fmt(&mut f) {
        Ok(()) => Ok(f.into_inner()),
        Err(_) => Err(AllocError),
    }
}

// A duration in the greatest unit of which it is a whole number; `0s` for none.
#[tactic(auto, unfolding(crate::specs::FileText::duration_text))]
fn duration_text(alloc: Global, span: Span) -> Result<String, AllocError>
    ensures { IfOk result (λ text. string_bytes text ≡ duration_words span) }
{
    let (count, unit) = if span == 0 || span % 60 != 0 {
        (span, "s")
    } else if span % 3600 != 0 {
        (span / 60, "m")
    } else if span % 86_400 != 0 {
        (span / 3600, "h")
    } else {
        (span / 86_400, "d")
    };
    format!(in alloc; "{count}{unit}")
}
