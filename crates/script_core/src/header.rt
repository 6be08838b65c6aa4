//! The header lines of a script or a journal: what they said, and what one more says.
ghost use Rattle.std.specs.Prelude.{◌≡◌, [], ◌∷◌, Some, None, Ok, MatchResult};
ghost use Rattle.script_core.specs.Words.{texts};
ghost use Rattle.script_core.specs.HeaderText.{policy_word, limits_word};
ghost use Rattle.script_core.specs.Arguments.{PolicyWord, LimitsWord, AreRefused};

use crate::Cause;
use crate::arguments::{read_limits, read_policy};
use fd_table::Limits;
use lock_manager::Rules;
use wait_core::Policy;

/// What the header lines said so far.
#[derive(Clone, Copy)]
pub struct Header {
    /// The policy, if a line said it.
    pub policy: Option<Policy>,
    /// The limits, if a line said them.
    pub limits: Option<Limits>,
}

impl Header {
    ghost use Rattle.script_core.specs.HeaderReading.{no_header, limits_said, rules_said, says_policy, says_limits, HeaderGives};

    /// No line was read.
    pub fn new() -> Header
        ensures { result ≡ no_header }
    {
        Header {
            policy: None,
            limits: None,
        }
    }

    /// The limits: small ones where no line said others.
    pub fn limits(&self) -> Limits
        ensures { result ≡ limits_said self.now }
    {
        self.limits.unwrap_or(Limits::Small)
    }

    /// The rules: the policy is held where no line said another.
    pub fn rules(&self) -> Rules
        ensures { result ≡ rules_said self.now }
    {
        Rules {
            policy: self.policy.unwrap_or(Policy::Held),
            limits: self.limits(),
        }
    }

    /// What the header lines say with a line of these words, where header lines may stand if `at_top`: `None` where it is none.
    pub fn parse(&self, at_top: bool, first: &str, rest: &[&str]) -> Result<Option<Header>, Cause>
        ensures { HeaderGives self.now at_top (λ header. Some header) first.now (texts rest.now) (result ≡ Ok None) result }
    {
        if self.says_policy(at_top, first) {
            let policy = Some(read_policy_line(rest)?);
            Ok(Some(Header { policy, ..*self }))
        } else if self.says_limits(at_top, first) {
            let limits = Some(read_limits_line(rest)?);
            Ok(Some(Header { limits, ..*self }))
        } else {
            Ok(None)
        }
    }

    /// Whether a line of this first word is the one that says the policy: it stands before all other lines, and once.
    fn says_policy(&self, at_top: bool, first: &str) -> bool
        ensures { result ≡ says_policy self.now at_top first.now }
    {
        first == "policy" && self.policy.is_none() && at_top
    }

    /// Whether a line of this first word is the one that says the limits: it stands before all other lines, and once.
    fn says_limits(&self, at_top: bool, first: &str) -> bool
        ensures { result ≡ says_limits self.now at_top first.now }
    {
        first == "limits" && self.limits.is_none() && at_top
    }
}

/// What stands behind the word `policy` of a header line.
fn read_policy_line(words: &[&str]) -> Result<Policy, Cause>
    ensures { MatchResult result (λ policy. texts words.now ≡ policy_word policy ∷ [])
        (AreRefused (PolicyWord ∷ []) (texts words.now)) }
{
    match words {
        [policy] => read_policy(policy),
        _ => Err(Cause::Count),
    }
}

/// What stands behind the word `limits` of a header line.
fn read_limits_line(words: &[&str]) -> Result<Limits, Cause>
    ensures { MatchResult result (λ limits. texts words.now ≡ limits_word limits ∷ [])
        (AreRefused (LimitsWord ∷ []) (texts words.now)) }
{
    match words {
        [limits] => read_limits(limits),
        _ => Err(Cause::Count),
    }
}
