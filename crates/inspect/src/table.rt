//! A listing as a table with aligned columns.
ghost use Rattle.std.specs.Prelude.{◌≡◌, max, length, string_len};
ghost use Rattle.inspect.specs.Words.{kind_word, protection_word};

use crate::listing::Row;
use object::format::Format;
use object::protection::Protection;
use std::alloc::{AllocError, Global};
use std::fmt;

// A column's words are texts, and no types with `Display`, since its width asks for their lengths.

/// The words for the kinds of files.
fn kind_word(format: Format) -> &'static str
    ensures { result.now ≡ kind_word format }
{
    match format {
        Format::Undefined => "undefined",
        Format::Association => "folder",
        Format::Text => "text",
    }
}

fn protection_word(protection: Protection) -> &'static str
    ensures { result.now ≡ protection_word protection }
{
    match protection {
        Protection::Unprotected => "none",
        Protection::ReadOnly => "read-only",
    }
}

/// A line of the table.
#[derive(Drop)]
struct Line {
    number: String,
    kind: &'static str,
    size: String,
    protection: &'static str,
    path: String,
}

impl Line {
    fn heading(heap: Global) -> Result<Line, AllocError> {
        Ok(Line {
            number: String::from_str(heap, "number")?,
            kind: "kind",
            size: String::from_str(heap, "size")?,
            protection: "protection",
            path: String::from_str(heap, "path")?,
        })
    }

    fn of(heap: Global, row: Row) -> Result<Line, AllocError> {
        Ok(Line {
            number: row.number.to_string(heap)?,
            kind: kind_word(row.format),
            size: row.length.to_string(heap)?,
            protection: protection_word(row.protection),
            path: row.path,
        })
    }
}

/// How wide each column but the last is.
#[derive(Clone, Copy, Default)]
struct Widths {
    number: usize,
    kind: usize,
    size: usize,
    protection: usize,
}

impl Widths {
    /// Widths for these columns and one more line.
    fn wider(self, line: &Line) -> Widths
        ensures number_value { result.number ≡ max self.number (string_len line.now.number) }
        ensures kind_value { result.kind ≡ max self.kind (length line.now.kind.now) }
        ensures size_value { result.size ≡ max self.size (string_len line.now.size) }
        ensures protection_value { result.protection ≡ max self.protection (length line.now.protection.now) }
    {
        Widths {
            number: self.number.max(line.number.len()),
            kind: self.kind.max(line.kind.len()),
            size: self.size.max(line.size.len()),
            protection: self.protection.max(line.protection.len()),
        }
    }
}

/// A heading and a line for each row, or nothing if there is no row.
#[derive(Drop)]
pub struct Table {
    lines: Vec<Line>,
}

impl Table {
    pub fn of(heap: Global, rows: Vec<Row>) -> Result<Table, AllocError> {
        let mut lines = Vec::new(heap);
        if !rows.is_empty() {
            lines.push(Line::heading(heap)?)?;
        }
        for row in rows {
            lines.push(Line::of(heap, row)?)?;
        }
        Ok(Table { lines })
    }

    fn widths(&self) -> Widths {
        self.lines
            .iter()
            .fold(Widths::default(), |widths, line| widths.wider(line))
    }
}

impl fmt::Display for Table {
    fn fmt<W: fmt::Write>(&self, f: &mut fmt::Formatter<W>) -> fmt::Result {
        let Widths {
            number: a,
            kind: b,
            size: c,
            protection: d,
        } = self.widths();
        for line in &self.lines {
            let Line {
                number,
                kind,
                size,
                protection,
                path,
            } = line;
            writeln!(
                f,
                "{number:>a$}  {kind:<b$}  {size:>c$}  {protection:<d$}  {path}"
            )?;
        }
        Ok(())
    }
}
