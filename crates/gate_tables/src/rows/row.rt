// The rows of the table.
use std::alloc::{AllocError, Global};

/// A row: a call, what it has to answer, and what it is called with.
#[derive(Drop)]
pub struct Row {
    fields: Vec<String>,
}

impl Row {
    /// The row of a line, whose fields tabs part.
    pub fn read(alloc: Global, line: &str) -> Result<Row, AllocError> {
        let mut fields = Vec::new(alloc);
        for field in line.split('\t') {
            fields.push(unescaped(alloc, field)?)?;
        }
        Ok(Row { fields })
    }

    /// What is called.
    pub fn call(&self) -> &str {
        self.field(0)
    }

    /// What has to be answered.
    pub fn expected(&self) -> &str {
        self.field(1)
    }

    /// A field; an empty one after the last.
    pub fn field(&self, place: usize) -> &str {
        match self.fields.get(place) {
            Some(field) => field.as_str(),
            None => "",
        }
    }

    /// The number in a field; nought where there is none.
    pub fn number(&self, place: usize) -> u32 {
        self.field(place).parse().unwrap_or(0)
    }
}

/// Whether a line has a row.
pub(crate) fn is_row(line: &str) -> bool {
    !line.is_empty() && !line.starts_with('#')
}

fn unescaped(alloc: Global, field: &str) -> Result<String, AllocError> {
    let fed = field.replace(alloc, "\\n", "\n")?;
    let returned = fed.replace(alloc, "\\r", "\r")?;
    returned.replace(alloc, "\\t", "\t")
}

/// The words of a line, which one space each parts.
pub fn words(alloc: Global, line: &str) -> Result<Vec<String>, AllocError> {
    let mut words = Vec::new(alloc);
    for word in line.split(' ') {
        words.push(String::from_str(alloc, word)?)?;
    }
    Ok(words)
}
