// The secrets of a command, by the key lines that are read for them.
ghost use Rattle.std.specs.Prelude.{◌≡◌, ◌≤◌, ◌*◌, ◌∷◌, [], is_some, true, false, IsTrue, IsErr, IsErrOf};
ghost use Rattle.cipher_profile.specs.KeyCauses.{UnlessFault};
ghost use Rattle.edge_model.specs.Causes.{Rose};
ghost use Rattle.sqlcipher_tool.specs.Due.{key_lines, rest_line, secret_line};
ghost use Rattle.sqlcipher_tool.specs.Promises.{TakesAtMost, after_lines, asks_some, lines_read, secrets_read};

use cipher_profile::{KeyError, LineForm, Secret, read_key};
use edge_model::Source;

/// The secrets of a command. One for which no key line is read is that of a plain file.
#[derive(Drop)]
pub struct Secrets {
    /// That of the file.
    pub first: Secret,
    /// That of the new file, where it gets a key of its own.
    pub second: Secret,
}

/// The secrets for each of which a key line of a form is read, or none.
pub fn read_secrets<K: Source>(
    asks: (Option<LineForm>, Option<LineForm>),
    input: &mut K,
) -> Result<Secrets, KeyError>
    ensures told { UnlessFault result ((asks_some (asks.0 ∷ asks.1 ∷ []) ≡ true → IsTrue K.tells)
        → secrets_read result ≡ key_lines (asks.0 ∷ asks.1 ∷ []) (K.left input.old)) }
    ensures rest { UnlessFault result ((asks_some (asks.0 ∷ asks.1 ∷ []) ≡ true → IsTrue K.tells)
        → K.left input.new ≡ after_lines (asks.0 ∷ asks.1 ∷ []) (K.left input.old)) }
    ensures at_most { IsTrue K.tells → TakesAtMost (1025 * lines_read (asks.0 ∷ asks.1 ∷ [])) (K.left input.old) (K.left input.new) }
    ensures unasked { asks_some (asks.0 ∷ asks.1 ∷ []) ≡ false → input.new ≡ input.old }
    ensures asked { IsErr result → asks_some (asks.0 ∷ asks.1 ∷ []) ≡ true }
    ensures later { K.faults input.old ≤ K.faults input.new }
    ensures fault { IsErrOf result KeyError.SourceFault → Rose (K.faults input.old) (K.faults input.new) }
{
    let first = secret_for(asks.0, input)?;
    let second = secret_for(asks.1, input)?;
    Ok(Secrets { first, second })
}

// The secret of the next key line, where one of this form is read for it, and else that of a plain file.
fn secret_for<K: Source>(asks: Option<LineForm>, input: &mut K) -> Result<Secret, KeyError>
    ensures told { UnlessFault result ((is_some asks ≡ true → IsTrue K.tells) → result ≡ secret_line asks (K.left input.old)) }
    ensures rest { UnlessFault result ((is_some asks ≡ true → IsTrue K.tells) → K.left input.new ≡ rest_line asks (K.left input.old)) }
    ensures at_most { IsTrue K.tells → TakesAtMost (1025 * lines_read (asks ∷ [])) (K.left input.old) (K.left input.new) }
    ensures unasked { is_some asks ≡ false → input.new ≡ input.old }
    ensures asked { IsErr result → is_some asks ≡ true }
    ensures later { K.faults input.old ≤ K.faults input.new }
    ensures fault { IsErrOf result KeyError.SourceFault → Rose (K.faults input.old) (K.faults input.new) }
{
    match asks {
        Some(form) => read_key(form, input),
        None => Ok(Secret::NoKey),
    }
}
