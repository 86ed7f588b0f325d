use monoid::recogniser::Recogniser;
use panels::panels::PanelOne;

// An element of the first panel's monoid.
pub type Element = <PanelOne as Recogniser>::Element;
