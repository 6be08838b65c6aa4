//! Laws of the decision. Each is the contract of a function that does nothing.
ghost use Rattle.cluster_view.specs.Laws.{SameHellosSameDecision, SameHellosSameParts};

/// Members that were told the same HELLOs, one of each node, in whatever order, decide the same; and they agree on what each does.
pub fn same_hellos_same_decision()
    ensures decision { SameHellosSameDecision }
    ensures parts { SameHellosSameParts }
{}
