//! What stays of layers where the graph and the purse grow.
ghost use Rattle.wb_explore.specs.Laws.{LayersStay, KnowledgeStays};

use wb_symstep::states_stay;

/// A layer is one in each graph to which its own grows.
pub fn layers_stay()
    ensures { LayersStay }
{
    states_stay();
}

/// What points tell of some kinds they tell where points were added.
pub fn knowledge_stays()
    ensures { KnowledgeStays }
{}
