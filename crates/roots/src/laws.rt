//! Laws of roots. Each function does nothing: its contract is the law.
ghost use Rattle.roots.specs.Slots.{OneIsCurrent};
ghost use Rattle.roots.specs.Opening.{OpeningAnswersOnce, StoresOpen};
ghost use Rattle.roots.specs.Shared.{ReadersSeeOneImage};

/// An image has at most one current root.
pub fn one_root_is_current()
    ensures { OneIsCurrent }
{}

/// Opening has one answer on an image. The answer is Ok exactly if the image has a current root and room for its store.
pub fn stores_open()
    ensures once { OpeningAnswersOnce }
    ensures stores { StoresOpen }
{}

/// Who reads beside a writer that keeps what it owes its readers, and confirms the root before and after, has read one image.
pub fn readers_see_one_image()
    ensures { ReadersSeeOneImage }
{}
