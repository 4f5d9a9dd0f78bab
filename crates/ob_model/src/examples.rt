//! Worked examples: what the definitions say of small namespaces.
//!
//! Each function has an empty body: its contract is a fact about a concrete state, stated in
//! `specs/Examples.antt`. The states are the opening state with some objects and rows more.

ghost use Rattle.ob_model.specs.Examples.{
  NamesWithAndWithoutCase,
  TextsInComponents,
  SeparatorsThatMeet,
  NamesThatAreFound,
  NamesThatAreMissing,
  NamesThatAreInvalid,
  FirstInsertedIsFound,
  RestIsParsed,
  LinkIsFollowed,
  LinkIsOpened,
  LinkToItself,
  TargetIsNoAbsoluteName,
  TargetEndsInSeparator,
  ChainOfLinks,
  LocalComesFirst,
  CreateIsLocal,
  ViewIsLocal,
  HoldsWithoutName,
  TemporaryGoes,
  PagesOfADirectory,
  MoreEntriesAreLeft,
  PageBehindARowThatWent,
  MadeTemporaryGoes,
  MadePermanentStays,
  MapHoldsItsDirectory,
  ShadowIsSeen,
  OwnComesFirst,
  CreateIsOwn,
  RootIsShadow,
  ShadowIsSearchedAlone,
  MapHasShadow,
  ShadowStaysAndGoes,
  ShadowsAreJudged,
  PathsOfObjects,
  ParseRunsEnd,
  CallsOfMadeAndClosed,
  CallsOfTwoCloses,
  ClosesOfAnEnd,
  OpeningIsSettled,
};
ghost use Rattle.ob_model.specs.ParseExamples.{
  MadeIsOpened,
  MadeOfAnotherTypeGoes,
  ItselfIsOpened,
  ParseIsRefused,
  AskerIsGone,
  OpenIsGivenUp,
  ReparsesAreCounted,
};

/// Names are equal with or without case, split into components, and joined at a separator.
///
/// - `names_with_and_without_case`: `Foo` and `FOO` are equal without case and differ with it; `[` is not `{` in either way.
/// - `texts_in_components`: `\Device\Disk\` is split after each of its components, and its last rest is `\`.
/// - `separators_that_meet`: Where a target ends in a separator and the rest begins with one, one of the two is dropped.
pub fn names_are_read()
    ensures names_with_and_without_case { NamesWithAndWithoutCase }
    ensures texts_in_components { TextsInComponents }
    ensures separators_that_meet { SeparatorsThatMeet }
{}

/// Names that are found, that are missing and that are invalid; of two entries the first inserted is found.
///
/// - `names_that_are_found`: The root, `\Device` and `\Device\Disk` are found, and `Disk` relative to `\Device`.
/// - `names_that_are_missing`: A component that names nothing is refused as a path in the middle of a name and as a name at its
///   end, where it is a place for a create. Nothing follows an object that is no directory.
/// - `names_that_are_invalid`: An empty component is refused, as in `\Device\` and `\Device\\Disk`, and so is a name that has no
///   separator in front.
/// - `first_inserted_is_found`: Of `\Foo` and `\FOO` the one inserted first is found without case, and each one with it.
pub fn names_lead_to_objects()
    ensures names_that_are_found { NamesThatAreFound }
    ensures names_that_are_missing { NamesThatAreMissing }
    ensures names_that_are_invalid { NamesThatAreInvalid }
    ensures first_inserted_is_found { FirstInsertedIsFound }
{}

/// Links: followed, opened themselves, in a ring, to targets of each form, and as many in a chain as a lookup follows; and a rest that is parsed.
///
/// - `rest_is_parsed`: An open hands what follows a parsing object to its parse, separators and all; a create never parses.
/// - `link_is_followed`: A link is followed with the rest after it kept, in an open and in a create.
/// - `link_is_opened`: A link is opened itself where the last component isn't followed.
/// - `link_to_itself`: A link that leads to itself ends at the limit of reparses.
/// - `target_is_no_absolute_name`: A link whose target is no absolute name is refused once it is followed.
/// - `target_ends_in_separator`: Where `\K` leads to `\A\`, `\K\B` is `\A\B`, and `\K` has an empty last component.
/// - `chain_of_links`: A chain of 32 links leads to the directory at its end, and one of 33 to the limit of reparses.
pub fn links_are_followed()
    ensures rest_is_parsed { RestIsParsed }
    ensures link_is_followed { LinkIsFollowed }
    ensures link_is_opened { LinkIsOpened }
    ensures link_to_itself { LinkToItself }
    ensures target_is_no_absolute_name { TargetIsNoAbsoluteName }
    ensures target_ends_in_separator { TargetEndsInSeparator }
    ensures chain_of_links { ChainOfLinks }
{}

/// `\??` is the local directory first, where a process has one; a map holds its directory.
///
/// - `local_comes_first`: An open of `\??\C:` finds the local directory's entry before the global one, and the global one
///   where the local directory, or the process, has none.
/// - `create_is_local`: A create of `\??\D:` looks in the local directory alone, though `D:` is a global name.
/// - `view_is_local`: `\??` itself is the local directory, and `\GLOBAL??` for a process that has none.
/// - `map_holds_its_directory`: The directory of a process's map stays without a name and without a handle, and goes when the process sets
///   another map.
pub fn views_come_first()
    ensures local_comes_first { LocalComesFirst }
    ensures create_is_local { CreateIsLocal }
    ensures view_is_local { ViewIsLocal }
    ensures map_holds_its_directory { MapHoldsItsDirectory }
{}

/// Objects that stay by a permanent name, by a handle and by names in them, and objects that go.
///
/// - `holds_without_name`: A temporary directory that holds a held object's name loses its own name in settling, and stays.
/// - `temporary_goes`: Without that handle both names go, and the object.
/// - `made_temporary_goes`: A permanent object that is made temporary keeps its name while it has a handle, and goes when its last one
///   is closed.
/// - `made_permanent_stays`: A temporary object that is made permanent stays with its name when its last handle is closed. One without a
///   name isn't made permanent.
pub fn objects_stay_or_go()
    ensures holds_without_name { HoldsWithoutName }
    ensures temporary_goes { TemporaryGoes }
    ensures made_temporary_goes { MadeTemporaryGoes }
    ensures made_permanent_stays { MadePermanentStays }
{}

/// Shadows: in lookups, in creates, below a device map, and how long they remain.
///
/// - `shadow_is_seen`: A component that the directory has no entry for is looked up in its shadow.
/// - `own_comes_first`: Where both have an entry, the directory's own is found. A listing shows own entries alone.
/// - `create_is_own`: A create doesn't collide with an entry of the shadow. It sees the shadow's entries before its last component.
/// - `root_is_shadow`: The root may be a shadow.
/// - `shadow_is_searched_alone`: A shadow's own shadow is not searched.
/// - `map_has_shadow`: An open of `\??\C:` finds the entry of the local directory's shadow before the global one. A create looks in
///   the local directory alone.
/// - `shadow_stays_and_goes`: A shadow without a handle remains as long as its directory, and is deleted with it.
/// - `shadows_are_judged`: A create refuses a shadow to which there is no handle, one that is no directory, and one that has a
///   shadow itself: after the root handle, and before the lookup.
pub fn shadows_are_seen()
    ensures shadow_is_seen { ShadowIsSeen }
    ensures own_comes_first { OwnComesFirst }
    ensures create_is_own { CreateIsOwn }
    ensures root_is_shadow { RootIsShadow }
    ensures shadow_is_searched_alone { ShadowIsSearchedAlone }
    ensures map_has_shadow { MapHasShadow }
    ensures shadow_stays_and_goes { ShadowStaysAndGoes }
    ensures shadows_are_judged { ShadowsAreJudged }
{}

/// Pages of a directory: what they hold, whether more is left, and one after a row that went.
///
/// - `pages_of_a_directory`: A page has all entries that fit, or one alone where one is asked for; none where none is left, or
///   where the first doesn't fit.
/// - `more_entries_are_left`: Where one byte of room is missing, a page says that more entries are left, and the next page begins
///   with the first of them.
/// - `page_behind_a_row_that_went`: Where the row goes that a page ended with, the next page begins after it and leaves nothing out.
pub fn pages_follow_stamps()
    ensures pages_of_a_directory { PagesOfADirectory }
    ensures more_entries_are_left { MoreEntriesAreLeft }
    ensures page_behind_a_row_that_went { PageBehindARowThatWent }
{}

/// The path of an object has the names of the way up from it, the last of them first; the root's is `\`.
pub fn paths_are_told()
    ensures { PathsOfObjects }
{}

/// Parse runs, and how an open ends that waited for one.
///
/// - `parse_runs_end`: A parse run ends with what is made once its rest is used up, in two steps here; with a refusal or a
///   text to look up where a step answers so; and with the object itself where there is no rest.
/// - `made_is_opened`: A resume opens the object that the parse made, under its ticket. The object that parsed is deleted, since
///   nothing else holds it.
/// - `made_of_another_type_goes`: The parse made an object of another type than was asked for: it is deleted unopened, before the
///   object that parsed.
/// - `itself_is_opened`: Where no rest is left the object that parsed is opened, though it has no name, and stays.
/// - `parse_is_refused`: The resume answers with a refusal of the parse.
/// - `asker_is_gone`: Where the process that asked is gone a resume says so, and what the parse made goes.
/// - `open_is_given_up`: An open is given up before its parse was run, or after it: then what the parse made goes.
/// - `reparses_are_counted`: A text to look up takes one of the reparses that are left; where none is left the resume is refused.
pub fn parses_end()
    ensures parse_runs_end { ParseRunsEnd }
    ensures made_is_opened { MadeIsOpened }
    ensures made_of_another_type_goes { MadeOfAnotherTypeGoes }
    ensures itself_is_opened { ItselfIsOpened }
    ensures parse_is_refused { ParseIsRefused }
    ensures asker_is_gone { AskerIsGone }
    ensures open_is_given_up { OpenIsGivenUp }
    ensures reparses_are_counted { ReparsesAreCounted }
{}

/// The calls of procedures in a step.
///
/// - `calls_of_made_and_closed`: An object is opened at its create, closed and deleted; one whose open is refused at its create is
///   deleted and never opened. The calls of the run are those that the set got.
/// - `calls_of_two_closes`: Of two closes each is given the handles that are left after it, and the last one is followed by the
///   delete.
/// - `closes_of_an_end`: A process that ends closes its handles in the order in which they were opened, and each close is given
///   the handles that are left after it.
pub fn calls_are_told()
    ensures calls_of_made_and_closed { CallsOfMadeAndClosed }
    ensures calls_of_two_closes { CallsOfTwoCloses }
    ensures closes_of_an_end { ClosesOfAnEnd }
{}

/// Settling leaves the opening state as it is, for each set of types.
pub fn opening_is_settled<K, T, F, I>()
    ensures { OpeningIsSettled K T F I }
{}
