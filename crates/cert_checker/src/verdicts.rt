//! The verdict on a certificate.

/// Why a certificate is refused. Entries are numbered from 0, and the vertices of a chain too.
#[derive(Clone, Copy, Debug, PartialEq, Eq)]
pub enum Reason {
    /// The text is no certificate.
    Form,
    /// The version is not the one that is demanded.
    Version,
    /// The bound is not the one that is demanded.
    Bound,
    /// The weights are not those that are demanded.
    Weights,
    /// The list of held arcs first differs from that of the map here, or one of the two ends here.
    Held(u32),
    /// The list of chains first differs from that of the map here, or one of the two ends here.
    Chains(u32),
    /// The kept vertices of this entry do not rise from the first vertex to the last.
    Kept(u32),
    /// In this entry the step between these vertices is not allowed, and it is the first such step.
    Path(u32, u32, u32),
    /// The layers of this entry are not one for each vertex, or do not lead from the number of
    /// steps to 0.
    Ends(u32),
    /// In this entry the pair of these vertices is allowed, though the layers fall by more than 1
    /// over it, and it is the first such pair.
    Layers(u32, u32, u32),
    /// The text that was put out first differs here from that of the judged map.
    Text(u32),
}

/// What is to be said of a certificate.
#[derive(Clone, Copy, Debug, PartialEq, Eq)]
pub enum Verdict {
    /// Each test holds.
    Yes,
    /// This is the first reason against it.
    No(Reason),
}
