//! A law, and no work.

ghost use Rattle.kilim_chart.specs.Drawn.{AllAreDrawn};

/// A law, and no work: of the list of shapes of rows, each row has one mark, and each put with its take has one arrow between their rows, and
/// nothing else has one.
pub fn all_are_drawn()
    ensures { AllAreDrawn }
{}
