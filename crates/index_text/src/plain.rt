// Whether a text is that of an index over plain columns.
ghost use Rattle.std.specs.Prelude.{◌≡◌, IfOk};
ghost use Rattle.sqlite_syntax.specs.Statement.{parse};
ghost use Rattle.index_text.specs.Plain.{is_index, reads_as_index};

use db_format::OutOfMemory;
use sqlite_ast::Statement;
use sqlite_syntax::error::ParseError;
use std::alloc::Global;

/// Whether the grammar reads the text as an index over plain columns, which has an entry for each row.
pub fn is_plain(alloc: Global, text: &[u8]) -> Result<bool, OutOfMemory>
    ensures { IfOk result (λ plain. plain ≡ reads_as_index (parse text.now)) }
{
    match sqlite_syntax::parse(alloc, text) {
        Ok(parsed) => Ok(is_index(&parsed.statement)),
        Err(ParseError::OutOfMemory) => Err(OutOfMemory),
        Err(_) => Ok(false),
    }
}

// Whether the statement makes an index.
fn is_index(statement: &Statement) -> bool
    ensures { result ≡ is_index statement.now }
{
    match statement {
        Statement::CreateIndex(_) => true,
        _ => false,
    }
}
