//! The laws.
ghost use Rattle.cluster_protocol.specs.Clusters.{MajoritiesMeet};
ghost use Rattle.cluster_protocol.specs.Outliving.{ToldLocksOutliveViews, ToldLocksStay};

use cluster_view::same_hellos_same_decision;

/// Two sets of nodes that each have more than half of the expected votes have a node in common.
pub fn majorities_meet()
    ensures { MajoritiesMeet }
{}

/// Whatever rings form and break, whatever is delivered with holes or comes late, whoever dies and starts again: the log by which a node
/// was told a lock that it neither lost nor let go is a beginning of the log of every later view, or that log has a purge of the node
/// since then; and a view that begins with none waits for the node, or is one in which the node loses its locks. What a node was told by
/// stays in each later state that a node has and that counts.
pub fn told_locks_outlive_views()
    ensures views { ToldLocksOutliveViews }
    ensures states { ToldLocksStay }
{
    same_hellos_same_decision();
}
