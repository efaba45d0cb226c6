//! A law of the sizes of frames. A function with an empty body states its contract, which the check has proved for
//! every text.

ghost use Rattle.fe2o3_sasl_negotiation.specs.FrameSizes.{InitsFit, ScramInitsFit, TextsFit, OutcomesFit};

/// States which frames of a login fit in the 512 bytes of a SASL frame, by the lengths of the texts that they carry.
/// You can test before a login that no frame of it is too large.
pub fn frame_sizes()
    ensures inits { InitsFit }
    ensures scram_inits { ScramInitsFit }
    ensures texts { TextsFit }
    ensures outcomes { OutcomesFit }
{}
