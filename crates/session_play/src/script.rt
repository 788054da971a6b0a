// The step that a line of a script is.
ghost use Rattle.std.specs.Prelude.{◌≡◌, ◌+◌, ◌<◌, ◌∷◌, ℕ, [], length, take, drop, None, Some, IfSome, MatchOption};
ghost use Rattle.std.specs.List.{position};
ghost use Rattle.std.specs.Option.{option_and_then, option_map};
ghost use Rattle.cipher_profile.specs.KeyLine.{key_line};
ghost use Rattle.cipher_profile.specs.Profile.{IsListed};
ghost use Rattle.profile_word.specs.Word.{named_without_log};
ghost use Rattle.session_hall.specs.Machine.{IsListedStep};
ghost use Rattle.session_play.specs.Script.{change_form, step_form, is_space, key_form, secret_step, lock_step, number_below, plain_form, read_form, secret_in, session_named, step_by, step_of, line_words};

use crate::rest::Rest;
use cipher_profile::{LineForm, Profile, Secret, read_key};
use profile_word::profile_without_log;
use session_hall::Step;
use text_lines::number_of;

/// How many sessions there are.
const SESSIONS: u32 = 16;

/// A step of a script.
#[derive(Drop)]
pub struct ScriptStep {
    /// The session.
    pub session: u8,
    /// What it does.
    pub step: Step,
    /// Of a step that reads a page, which of its bytes is printed.
    pub at: u32,
}

/// The step that a line is, none where it has none of the forms.
#[tactic(auto, unfolding(crate::specs::Script::step_of))]
pub fn step_of(layout: &Profile, line: &[u8]) -> Option<ScriptStep>
    requires { IsListed layout.now }
    ensures value { result ≡ step_of layout.now line.now }
    ensures session { IfSome result (λ entry. entry.session < 16) }
    ensures listed { IfSome result (λ entry. IsListedStep entry.step) }
{
    let (name, rest) = cut(line);
    let Some(rest) = rest else {
        return bare_step(layout, name);
    };
    let (first, rest) = cut(rest);
    let Some(rest) = rest else {
        return session_step(layout, name, first);
    };
    let (second, rest) = cut(rest);
    let Some(third) = rest else {
        return plain_step(layout, name, first, second);
    };
    full_step(layout, name, first, second, third)
}

// The bytes before the first space, and those behind it, where there is one.
fn cut(text: &[u8]) -> (&[u8], Option<&[u8]>)
    ensures { MatchOption result.1 ((position is_space text.now ≡ None) × (result.0.now ≡ text.now))
        (λ rest. (at : ℕ) × (position is_space text.now ≡ Some at) × (result.0.now ≡ take at text.now) × (rest.now ≡ drop (at + 1) text.now)) }
{
    match first_space(text) {
        Some(at) => (&text[..at], Some(&text[at + 1..])),
        None => (text, None),
    }
}

// Where the first space stands.
fn first_space(text: &[u8]) -> Option<usize>
    ensures value { result ≡ position is_space text.now }
    ensures within { IfSome result (λ at. at < length text.now) }
{
    text.iter().position(|byte| *byte == b' ')
}

// A step of this session, of which no byte is printed.
fn step_by(session: u8, step: Step) -> ScriptStep
    ensures { result ≡ step_by session step }
{
    ScriptStep {
        session,
        step,
        at: 0,
    }
}

// The step of one word.
fn bare_step(layout: &Profile, name: &[u8]) -> Option<ScriptStep>
    ensures value { result ≡ step_form layout.now (name.now ∷ []) }
    ensures session { IfSome result (λ entry. entry.session < 16) }
    ensures listed { IfSome result (λ entry. IsListedStep entry.step) }
{
    if name == b"stop".as_slice() {
        return Some(step_by(0, Step::Stop));
    }
    None
}

// The step of two words.
fn session_step(layout: &Profile, name: &[u8], first: &[u8]) -> Option<ScriptStep>
    ensures value { result ≡ step_form layout.now (name.now ∷ first.now ∷ []) }
    ensures session { IfSome result (λ entry. entry.session < 16) }
    ensures listed { IfSome result (λ entry. IsListedStep entry.step) }
{
    let session = session_of(first)?;
    let step = lock_step(name)?;
    Some(step_by(session, step))
}

// The step of three words: it names a plain profile.
fn plain_step(layout: &Profile, name: &[u8], first: &[u8], second: &[u8]) -> Option<ScriptStep>
    ensures value { result ≡ step_form layout.now (name.now ∷ first.now ∷ second.now ∷ []) }
    ensures session { IfSome result (λ entry. entry.session < 16) }
    ensures listed { IfSome result (λ entry. IsListedStep entry.step) }
{
    let session = session_of(first)?;
    let profile = profile_without_log(second)?;
    let step = plain_form(name, profile)?;
    Some(step_by(session, step))
}

// The step of four words, the last of which may have spaces.
fn full_step(
    layout: &Profile,
    name: &[u8],
    first: &[u8],
    second: &[u8],
    third: &[u8],
) -> Option<ScriptStep>
    requires { IsListed layout.now }
    ensures value { result ≡ step_form layout.now (name.now ∷ first.now ∷ second.now ∷ third.now ∷ []) }
    ensures session { IfSome result (λ entry. entry.session < 16) }
    ensures listed { IfSome result (λ entry. IsListedStep entry.step) }
{
    let session = session_of(first)?;
    if name == b"read".as_slice() {
        return read_step(layout, session, second, third);
    }
    if name == b"change".as_slice() {
        return change_step(layout, session, second, third);
    }
    let profile = profile_without_log(second)?;
    let step = key_form(name, third, profile)?;
    Some(step_by(session, step))
}

// The step that names a session alone.
fn lock_step(name: &[u8]) -> Option<Step>
    ensures value { result ≡ lock_step name.now }
    ensures listed { IfSome result IsListedStep }
{
    if name == b"share".as_slice() {
        return Some(Step::Share);
    }
    if name == b"reserve".as_slice() {
        return Some(Step::Reserve);
    }
    if name == b"commit".as_slice() {
        return Some(Step::Commit);
    }
    if name == b"release".as_slice() {
        return Some(Step::Release);
    }
    None
}

// The step that names a profile and has this key.
fn key_step(name: &[u8], secret: Secret, profile: Profile) -> Option<Step>
    requires { IsListed profile }
    ensures value { result ≡ secret_step name.now secret profile }
    ensures listed { IfSome result IsListedStep }
{
    if name == b"open".as_slice() {
        return Some(Step::Open { secret, profile });
    }
    if name == b"rekey".as_slice() {
        return Some(Step::Rekey { secret, profile });
    }
    None
}

// `open` and `rekey` of a plain profile.
fn plain_form(name: &[u8], profile: Profile) -> Option<Step>
    requires { IsListed profile }
    ensures value { result ≡ plain_form name.now profile }
    ensures listed { IfSome result IsListedStep }
{
    if !profile.is_plain() {
        return None;
    }
    key_step(name, Secret::NoKey, profile)
}

// `open` and `rekey` of another profile, with the key that this text is as a key line of its form.
fn key_form(name: &[u8], key: &[u8], profile: Profile) -> Option<Step>
    requires { IsListed profile }
    ensures value { result ≡ key_form name.now key.now profile }
    ensures listed { IfSome result IsListedStep }
{
    let form = profile.line_form()?;
    let secret = secret_in(form, key)?;
    key_step(name, secret, profile)
}

// `read`, with its last two words.
fn read_step(layout: &Profile, session: u8, number: &[u8], at: &[u8]) -> Option<ScriptStep>
    requires listed { IsListed layout.now }
    requires session { session < 16 }
    ensures value { result ≡ read_form layout.now session number.now at.now }
    ensures session { IfSome result (λ entry. entry.session < 16) }
    ensures listed { IfSome result (λ entry. IsListedStep entry.step) }
{
    let page = number_of(number)?;
    let at = number_below(layout.usable() as u32, at)?;
    Some(ScriptStep {
        session,
        step: Step::Read { page },
        at,
    })
}

// `change`, with its last three words.
fn change_step(layout: &Profile, session: u8, number: &[u8], rest: &[u8]) -> Option<ScriptStep>
    requires listed { IsListed layout.now }
    requires session { session < 16 }
    ensures value { result ≡ change_form layout.now session number.now (line_words 1 rest.now) }
    ensures session { IfSome result (λ entry. entry.session < 16) }
    ensures listed { IfSome result (λ entry. IsListedStep entry.step) }
{
    let (at, rest) = cut(rest);
    let value = rest?;
    let page = number_of(number)?;
    let at = number_below(layout.usable() as u32, at)?;
    let byte = number_below(256, value)?;
    let step = Step::Change {
        page,
        at,
        byte: byte as u8,
    };
    Some(step_by(session, step))
}

// The number that a word names, where it is below this one.
fn number_below(limit: u32, word: &[u8]) -> Option<u32>
    ensures value { result ≡ number_below limit word.now }
    ensures below { IfSome result (λ number. number < limit) }
{
    let number = number_of(word)?;
    if number < limit {
        return Some(number);
    }
    None
}

// The session that a word names.
fn session_of(word: &[u8]) -> Option<u8>
    ensures value { result ≡ session_named word.now }
    ensures below { IfSome result (λ session. session < 16) }
{
    let session = number_below(SESSIONS, word)?;
    Some(session as u8)
}

// The secret that a text is as a key line of this form.
fn secret_in(form: LineForm, key: &[u8]) -> Option<Secret>
    ensures { result ≡ secret_in (key_line form key.now) }
{
    match read_key(form, &mut Rest::new(key)) {
        Ok(secret) => Some(secret),
        Err(_) => None,
    }
}
