// What a held catalogue stands in: its identity objects, its SVIDs, the number of modes of each, and the run with the
// words of the modes.
ghost use Rattle.std.specs.Prelude.{◌≤◌, length};
ghost use Rattle.laptop.specs.Catalogue.{run_words};
ghost use Rattle.pages.specs.Lists.{most_svids};
ghost use Rattle.catalogue.specs.Bytes.{most_objects};

#[derive(Clone, Copy)]
pub(crate) struct Parts<'a> {
    pub objects: &'a [u32],
    pub svids: &'a [u16],
    pub modes: &'a [u8],
    pub run: &'a [u32],
    ghost few_objects: { length objects.now ≤ most_objects },
    ghost few_svids: { length svids.now ≤ most_svids },
    ghost whole_run: { run_words ≤ length run.now },
}
