ghost use Rattle.cover_example.specs.Met.{CoveredHistory};

/// There are such scripts, and histories of them in which what a unit has read is kept until it is posted.
pub fn a_covered_history()
    ensures met { CoveredHistory }
{}
