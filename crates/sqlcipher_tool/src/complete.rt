// That nothing but what stands in its way, a fault outside and want of memory keep a command from being done.
ghost use Rattle.std.specs.Prelude.{◌≡◌, ◌∷◌, [], ℕ, List, Ok, Option, codes, length};
ghost use Rattle.cipher_profile.specs.declared.keys.Secret.{Secret};
ghost use Rattle.cipher_profile.specs.declared.profile.LineForm.{LineForm};
ghost use Rattle.cipher_profile.specs.declared.profile.Profile.{Profile};
ghost use Rattle.cipher_profile.specs.Profile.{IsListed};
ghost use Rattle.edge_model.specs.Files.{File, Files, no_files};
ghost use Rattle.make_job.specs.Made.{IsMade};
ghost use Rattle.sqlcipher_tool.specs.Due.{due, key_lines};
ghost use Rattle.sqlcipher_tool.specs.Servable.{CanBeServed, IsDoneAlone, IsForAnySize, IsServable, standing};
ghost use Rattle.sqlcipher_tool.specs.declared.command.Command.{Command};
ghost use Rattle.sqlcipher_tool.specs.declared.command.Command.TheVariants.{Change as ChangeFile};
ghost use Rattle.sqlcipher_tool.specs.declared.change.Change.TheVariants.{Migrate};

/// Each secret that is asked for is given, by a key line or without one.
pub fn key_lines_law()
    ensures { (asked : List (Option LineForm)) (left : List ℕ) (secrets : List Secret) → key_lines asked left ≡ Ok secrets → length secrets ≡ length asked }
{}

/// Where nothing stands in the way of the command that the words make, Done alone is due.
pub fn complete_law()
    ensures { (words : List (List ℕ)) (left : List ℕ) (files after : Files) → CanBeServed words left files → IsDoneAlone (due words left files after) }
{}

/// Nothing stands in the way of a command that reads a file that `make` made, where no journal is beside it.
pub fn made_servable_law()
    ensures { (profile : Profile) (secret : Secret) (rows : ℕ) (file : File) (fresh : Option File) → IsListed profile → IsMade profile secret rows file.bytes
        → (second : Secret) (command : Command) → IsForAnySize profile command → IsServable command (secret ∷ second ∷ []) (standing file fresh) }
{}

/// Nor is anything in the way of `migrate` on a file that was made without rows: it has no more pages than may be, whatever the new profile.
pub fn made_migrates_law()
    ensures { (old new : Profile) (secret second : Secret) (file : File) (fresh : Option File) → IsListed new → IsMade old secret 0 file.bytes
        → IsServable (ChangeFile old (Migrate new)) (secret ∷ second ∷ []) (standing file fresh) }
{}

/// Nothing stands in the way of `recover` where no file is there.
pub fn nothing_servable_law()
    ensures { (left : List ℕ) → CanBeServed (codes "recover" ∷ codes "4" ∷ []) left no_files }
{}
