//! Why a line wasn't read.
use history_core::SearchFault;
use range_core::Memory;

/// Why a line wasn't read.
#[derive(Clone, Copy, Debug, PartialEq, Eq)]
pub enum JudgeFault {
    /// A `>` of an ID that is open.
    IdTaken,
    /// A `<` of an ID that isn't open.
    IdUnknown,
    /// No order of all effects permits the answer: the history isn't legal.
    Impossible,
    /// More possibilities than the limit are kept at once, or would be.
    Limit,
    /// A growth was refused.
    Memory(Memory),
}

impl From<SearchFault> for JudgeFault {
    ghost use Rattle.std.specs.Prelude.{◌≡◌};
    ghost use Rattle.history_judge.specs.JudgeView.{judge_fault_of};

    ghost from_gives = { λ search fault. fault ≡ judge_fault_of search };

    fn from(search: SearchFault) -> JudgeFault {
        match search {
            SearchFault::Limit => JudgeFault::Limit,
            SearchFault::Memory(memory) => JudgeFault::Memory(memory),
        }
    }
}

impl From<Memory> for JudgeFault {
    ghost use Rattle.std.specs.Prelude.{◌≡◌};
    ghost use Rattle.history_judge.specs.declared.fault.JudgeFault.{JudgeFault};

    ghost from_gives = { λ memory fault. fault ≡ JudgeFault.Memory memory };

    fn from(memory: Memory) -> JudgeFault {
        JudgeFault::Memory(memory)
    }
}
