//! The arguments of a command, each as its type.
ghost use Rattle.std.specs.Prelude.{◌≡◌, ◌<◌, ◌^◌, MatchResult, codes, decimal};
ghost use Rattle.std.specs.Fmt.{signed_decimal};
ghost use Rattle.script_core.specs.Arguments.{FileNumber, SectionNumber, SharedWord, DescriptorNumber, AnyNumber, UnsignedNumber, ProcessNumber, NbWord, PolicyWord, LimitsWord, IsBad};
ghost use Rattle.lock_manager.specs.declared.request.TheConstants.{SECTIONS};
ghost use Rattle.script_core.specs.HeaderText.{policy_word, limits_word};
ghost use Rattle.script_core.specs.ScriptText.{IsProcess};

use crate::Cause;
use crate::numbers::{integer_of, natural_of};
use fd_table::{FILES, Limits};
use lock_manager::SECTIONS;
use wait_core::Policy;

/// The number of a process, of which there are as many as the limits say.
#[tactic(auto, using(crate::proofs::NumberLemmas::one_number))]
pub fn read_process(limits: Limits, word: &str) -> Result<u8, Cause>
    ensures { MatchResult result (λ p. IsProcess limits p × (word.now ≡ decimal p)) (IsBad (ProcessNumber limits) word.now) }
{
    match natural_of(word) {
        Some(p) if 1 <= p && p <= u64::from(limits.processes()) => Ok(p as u8),
        _ => Err(Cause::Process),
    }
}

/// The number of a file.
#[tactic(auto, using(crate::proofs::NumberLemmas::one_number))]
pub fn read_file(word: &str) -> Result<u8, Cause>
    ensures { MatchResult result (λ file. (file < FILES) × (word.now ≡ decimal file)) (IsBad FileNumber word.now) }
{
    match natural_of(word) {
        Some(file) if file < u64::from(FILES) => Ok(file as u8),
        _ => Err(Cause::Number),
    }
}

/// The number of a section.
#[tactic(auto, using(crate::proofs::NumberLemmas::one_number))]
pub fn read_section(word: &str) -> Result<u8, Cause>
    ensures { MatchResult result (λ section. (section < SECTIONS) × (word.now ≡ decimal section)) (IsBad SectionNumber word.now) }
{
    match natural_of(word) {
        Some(section) if section < u64::from(SECTIONS) => Ok(section as u8),
        _ => Err(Cause::Number),
    }
}

/// The word of a shared visit.
pub fn read_shared(word: &str) -> Result<(), Cause>
    ensures { MatchResult result (λ unit. word.now ≡ codes "sh") (IsBad SharedWord word.now) }
{
    match word {
        "sh" => Ok(()),
        _ => Err(Cause::Word),
    }
}

/// The number of a descriptor: any of 32 bits, since the manager is to judge it.
#[tactic(auto, using(crate::proofs::NumberLemmas::one_number))]
pub fn read_descriptor(word: &str) -> Result<u32, Cause>
    ensures { MatchResult result (λ fd. word.now ≡ decimal fd) (IsBad DescriptorNumber word.now) }
{
    match natural_of(word) {
        Some(fd) if fd <= u64::from(u32::MAX) => Ok(fd as u32),
        _ => Err(Cause::Number),
    }
}

/// A number of 64 bits, with a minus sign where it is negative.
pub fn read_number(word: &str) -> Result<i64, Cause>
    ensures { MatchResult result (λ z. word.now ≡ signed_decimal z) (IsBad AnyNumber word.now) }
{
    integer_of(word).ok_or(Cause::Number)
}

/// A natural number of 64 bits.
pub fn read_unsigned(word: &str) -> Result<u64, Cause>
    ensures { MatchResult result (λ n. word.now ≡ decimal n) (IsBad UnsignedNumber word.now) }
{
    natural_of(word).ok_or(Cause::Number)
}

/// The word of `LOCK_NB`.
pub fn read_nb(word: &str) -> Result<(), Cause>
    ensures { MatchResult result (λ unit. word.now ≡ codes "nb") (IsBad NbWord word.now) }
{
    match word {
        "nb" => Ok(()),
        _ => Err(Cause::Word),
    }
}

/// The word of a policy.
pub fn read_policy(word: &str) -> Result<Policy, Cause>
    ensures { MatchResult result (λ policy. word.now ≡ policy_word policy) (IsBad PolicyWord word.now) }
{
    match word {
        "held" => Ok(Policy::Held),
        "queue" => Ok(Policy::Queue),
        _ => Err(Cause::Word),
    }
}

/// The word of limits.
pub fn read_limits(word: &str) -> Result<Limits, Cause>
    ensures { MatchResult result (λ limits. word.now ≡ limits_word limits) (IsBad LimitsWord word.now) }
{
    match word {
        "small" => Ok(Limits::Small),
        "wide" => Ok(Limits::Wide),
        _ => Err(Cause::Word),
    }
}
