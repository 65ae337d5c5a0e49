//! Laws of the wide grammars.
ghost use Rattle.soup_files.specs.Widened.{WideOffLaw, WideStlLaw};

/// A text that `read_off` takes is read alike by `read_wide_off`.
pub fn law_wide_off()
    ensures { WideOffLaw }
{}

/// A text that `read_ascii_stl` takes is read alike by `read_wide_stl`.
pub fn law_wide_stl()
    ensures { WideStlLaw }
{}
