//! What every history of a cabinet promises of the tables in force. The functions have nothing to do.

ghost use Rattle.cabinet_history.specs.CabinetHistory.{CabinetHistory};
ghost use Rattle.cabinet_history.specs.Downloads.{VersionCounts, NothingElseInstalled, TablesAreWhole};

/// The version is the number of downloads that were put in force; while one is under way nothing else is put in force; and the
/// tables in force are the opening ones with the whole content of each accepted download put in order.
pub fn whole_downloads()
    ensures version { (cabinet_history : CabinetHistory) → VersionCounts cabinet_history }
    ensures nothing_else { (cabinet_history : CabinetHistory) → NothingElseInstalled cabinet_history }
    ensures tables { (cabinet_history : CabinetHistory) → TablesAreWhole cabinet_history }
{}
