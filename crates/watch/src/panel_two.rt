use monoid::recogniser::Recogniser;
use panels::panels::PanelTwo;

// An element of the second panel's monoid.
pub type Element = <PanelTwo as Recogniser>::Element;
