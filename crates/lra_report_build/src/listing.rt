//! The report of what an analysis found.

ghost use Rattle.std.specs.Prelude.{◌≡◌, ◌++◌, ◌∷◌, ◌<◌, ◌^◌, ℕ, suc, length, map, flat_map, Some, option_map, IfOk};
ghost use Rattle.std.specs.Prelude.{string_bytes, List, All};
ghost use Rattle.lra_report_build.specs.Crates.lra_operations.Agree.{IsInlinedTree};
ghost use Rattle.lra_report_build.specs.Crates.{lra_operations.Tree.Node, lra_operations.TreeViews.site_view};
ghost use Rattle.lra_syntax.specs.Views.{tree_view, external_view, global_view};
ghost use Rattle.lra_syntax.specs.{Labels.label_at, Labels.labels_of, Trees.ExternalTree};
ghost use Rattle.lra_report_build.specs.Crates.lra_base.AccessVerdicts.{reported_view};
ghost use Rattle.lra_report_build.specs.Crates.lra_resolution_spec.LiveNames.{live_name, globals_named, names_outside};
ghost use Rattle.lra_report_build.specs.Crates.lra_resolution_spec.LiveNames.{live_names};
ghost use Rattle.lra_report_build.specs.Crates.lra_resolution_spec.ShownNames.{shown_names};
ghost use Rattle.lra_report_build.specs.Crates.{lra_program.Sites.sites_of, lra_resolution_spec.Resolve.resolve};
ghost use Rattle.lra_report.specs.Listing.{call_at, called_at, calls_on, listed_point, listed_verdict, AreListed};
ghost use Rattle.lra_report.specs.Listing.{Lists};
ghost use Rattle.lra_report.specs.ReportText.{path_text};
ghost use Rattle.lra_report.specs.View.{call_place_of, point_report_of, verdict_of, report_of};
ghost use Rattle.lra_report.specs.declared.verdict_kinds.VerdictKind.TheVariants.{Assertion, Fit};
ghost use Rattle.lra_report_build.specs.AnalysisResults.{AreFitting, AreInvariants, AreVerdicts, state_of};
ghost use Rattle.lra_report_build.specs.AnalysisResults.{reported_all, reported_of, access_verdicts};
ghost use Rattle.lra_report_build.specs.AnalysisResults.{access_verdicts_at, verdict_at, AreAccessVerdicts};
ghost use Rattle.lra_report_build.specs.Views.{subject_view};

use lra_options::Options;
use lra_report::{
    CallPlace, Labels, Part, Place, Point, PointReport, Report, Site, Verdict, VerdictKind,
    names_at, path_text,
};
use lra_row_text::Names;
use lra_syntax::{
    ExternalDeclaration, Global as Variable, Identifier, ScalarOrArray, TranslationUnit, Word,
};
use std::alloc::{AllocError, Global};

/// Adds names.
fn push_words(words: &[Word], names: &mut Names) -> Result<(), AllocError>
    ensures { IfOk result (λ _. names.new ≡ names.old ++ words.now) }
{
    'words: for word in words {
        names.push(word.as_str())?;
    }
    Ok(())
}

/// Adds the names of the callers' variables, the outermost caller's first.
fn push_outside(
    alloc: Global,
    labels: &Labels,
    path: &[usize],
    names: &mut Names,
) -> Result<(), AllocError>
    ensures { IfOk result (λ _. names.new ≡ names.old ++ names_outside labels.now.labels path.now) }
{
    match path.split_first() {
        None => Ok(()),
        Some((call, outer)) => {
            push_outside(alloc, labels, outer, names)?;
            let words = labels.live_in_call(alloc, *call)?;
            push_words(&words, names)
        }
    }
}

/// Adds a call of this name.
fn push_called(
    alloc: Global,
    called: &Option<Identifier>,
    calls: &mut Vec<CallPlace>,
) -> Result<(), AllocError>
    ensures { IfOk result (λ _. map call_place_of calls.new.items ≡
        map call_place_of calls.old.items ++ call_at called.now) }
{
    match called {
        None => Ok(()),
        Some(called) => {
            let name = String::from_str(alloc, called.word.as_str())?;
            calls.push(CallPlace {
                name,
                place: called.place,
            })?;
            Ok(())
        }
    }
}

/// Adds what the label calls, if it calls something.
fn push_call(
    alloc: Global,
    labels: &Labels,
    label: usize,
    calls: &mut Vec<CallPlace>,
) -> Result<(), AllocError>
    ensures { IfOk result (λ _. map call_place_of calls.new.items ≡
        map call_place_of calls.old.items ++ called_at (label_at labels.now.labels label)) }
{
    match labels.get(label) {
        None => Ok(()),
        Some(found) => push_called(alloc, &found.called, calls),
    }
}

/// Adds the calls of a path, the outermost first.
fn push_calls(
    alloc: Global,
    labels: &Labels,
    path: &[usize],
    calls: &mut Vec<CallPlace>,
) -> Result<(), AllocError>
    ensures { IfOk result (λ _. map call_place_of calls.new.items ≡
        map call_place_of calls.old.items ++ calls_on labels.now.labels path.now) }
{
    match path.split_first() {
        None => Ok(()),
        Some((call, outer)) => {
            push_calls(alloc, labels, outer, calls)?;
            push_call(alloc, labels, *call, calls)
        }
    }
}

/// The text of a path.
fn shown_path(alloc: Global, labels: &Labels, path: &[usize]) -> Result<String, AllocError>
    ensures { IfOk result (λ shown. string_bytes shown ≡ path_text (calls_on labels.now.labels path.now)) }
{
    let mut calls = Vec::new(alloc);
    push_calls(alloc, labels, path, &mut calls)?;
    path_text(alloc, calls.as_slice())
}

/// Adds names.
fn push_each(more: &Names, names: &mut Names) -> Result<(), AllocError>
    ensures { IfOk result (λ _. names.new ≡ names.old ++ more.now) }
{
    'texts: for text in more.texts() {
        names.push(text.as_str())?;
    }
    Ok(())
}

/// The names of the variables that live at a point, as they are printed.
fn shown_live(
    alloc: Global,
    labels: &Labels,
    globals: &Names,
    site: &Site,
) -> Result<Names, AllocError>
    ensures { IfOk result (λ shown. shown ≡ shown_names
        (live_names globals.now labels.now.labels (site_view site.now))) }
{
    let mut names = Names::new(alloc);
    push_each(globals, &mut names)?;
    push_outside(alloc, labels, site.path.as_slice(), &mut names)?;
    let words = labels.live(alloc, site.label)?;
    push_words(&words, &mut names)?;
    names_at(alloc, &names)
}

/// The path and label of a point.
fn point(alloc: Global, site: &Site) -> Result<Point, AllocError>
    ensures path { IfOk result (λ p. p.path.items ≡ site.now.path) }
    ensures label { IfOk result (λ p. p.label ≡ site.now.label) }
{
    let mut path = Vec::new(alloc);
    path.extend_from_slice(site.path.as_slice())?;
    Ok(Point {
        path,
        label: site.label,
    })
}

/// A point of the report.
pub fn list_point(
    alloc: Global,
    labels: &Labels,
    globals: &Names,
    number: u32,
    site: &Site,
    state: Vec<Part>,
) -> Result<PointReport, AllocError>
    ensures { IfOk result (λ p. point_report_of p ≡ listed_point globals.now labels.now.labels number
        (site_view site.now) state.items) }
{
    Ok(PointReport {
        number,
        point: point(alloc, site)?,
        path: shown_path(alloc, labels, site.path.as_slice())?,
        place: labels.place(site.label),
        names: shown_live(alloc, labels, globals, site)?,
        state,
    })
}

/// What is judged: the kind, the point and its number, which of the kind there, counted from 0 in the order of
/// evaluation, and where a verdict on it is printed.
#[derive(Clone, Copy)]
pub struct Subject<'a> {
    pub kind: VerdictKind,
    pub number: u32,
    pub site: &'a Site,
    pub which: usize,
    pub place: Place,
}

/// A verdict of the report.
pub fn list_verdict(
    alloc: Global,
    labels: &Labels,
    subject: Subject<'_>,
    holds: bool,
) -> Result<Verdict, AllocError>
    ensures { IfOk result (λ v. verdict_of v ≡
        listed_verdict labels.now.labels (subject_view subject.entry) holds) }
{
    Ok(Verdict {
        kind: subject.kind,
        number: subject.number,
        point: point(alloc, subject.site)?,
        which: subject.which,
        path: shown_path(alloc, labels, subject.site.path.as_slice())?,
        place: subject.place,
        holds,
    })
}

/// Adds the name of a global variable; an array isn't among those that live.
fn push_variable(global: &Variable, names: &mut Names) -> Result<(), AllocError>
    ensures { IfOk result (λ _. names.new ≡ names.old ++ live_name (global_view global.now)) }
{
    match &global.shape {
        ScalarOrArray::Scalar(_) => names.push(global.name.word.as_str()),
        ScalarOrArray::Array(_) => Ok(()),
    }
}

/// Adds the names of global variables.
fn push_variables(globals: &[Variable], names: &mut Names) -> Result<(), AllocError>
    ensures { IfOk result (λ _. names.new ≡ names.old ++ flat_map live_name (map global_view globals.now)) }
{
    'globals: for global in globals {
        push_variable(global, names)?;
    }
    Ok(())
}

/// Adds the names of the global variables of a part.
fn push_globals(item: &ExternalDeclaration, names: &mut Names) -> Result<(), AllocError>
    ensures { IfOk result (λ _. (rest : List ExternalTree) →
        names.new ++ globals_named rest ≡ names.old
        ++ globals_named (external_view item.now ∷ rest)) }
{
    match item {
        ExternalDeclaration::Prototype => Ok(()),
        ExternalDeclaration::Globals(globals) => {
            push_variable(&globals.first, names)?;
            push_variables(&globals.rest, names)
        }
        ExternalDeclaration::Function(_) => Ok(()),
    }
}

/// The names of the global variables, in text order.
pub fn names_of_globals(alloc: Global, tree: &TranslationUnit) -> Result<Names, AllocError>
    ensures { IfOk result (λ names. names ≡ globals_named (tree_view tree.now).parts) }
{
    let mut names = Names::new(alloc);
    'parts: for item in &tree.items {
        push_globals(item, &mut names)?;
    }
    Ok(names)
}

/// The number of a point in a report, where they count from 1.
pub fn number_of(index: usize) -> u32
    requires { suc index < 2 ^ 32 }
    ensures { result ≡ suc index }
{
    index as u32 + 1
}

/// The points of the report: all of them in order, numbered from 1.
pub fn list_points(
    alloc: Global,
    labels: &Labels,
    globals: &Names,
    sites: &[Site],
    states: Vec<Vec<Part>>,
) -> Result<Vec<PointReport>, AllocError>
    requires numbers { length sites.now < 2 ^ 32 }
    requires states { AreInvariants (map site_view sites.now) (map (λ x. x.items) states.items) }
    ensures listed { IfOk result (λ points. AreListed globals.now labels.now.labels 1 (map site_view sites.now)
        (map point_report_of points.items)) }
    ensures states { IfOk result (λ points. map state_of (map point_report_of points.items) ≡
        map (λ x. x.items) states.items) }
{
    let mut points = Vec::new(alloc);
    'states: for state in states {
        let index = points.len();
        let site = &sites[index];
        points.push(list_point(alloc, labels, globals, number_of(index), site, state)?)?;
    }
    Ok(points)
}

/// Adds the verdicts of a kind.
fn push_verdicts(
    alloc: Global,
    labels: &Labels,
    sites: &[Site],
    kind: VerdictKind,
    verdicts: &[(usize, bool)],
    listed: &mut Vec<Verdict>,
) -> Result<(), AllocError>
    requires numbers { length sites.now < 2 ^ 32 }
    requires there { All (λ v. v.0 < length sites.now) verdicts.now }
    ensures { IfOk result (λ _. map verdict_of listed.new.items ≡ map verdict_of listed.old.items ++
        map (verdict_at labels.now.labels (map site_view sites.now) kind) verdicts.now) }
{
    'verdicts: for verdict in verdicts {
        let (index, holds) = *verdict;
        let site = &sites[index];
        let subject = Subject {
            kind,
            number: number_of(index),
            site,
            which: 0,
            place: labels.place(site.label),
        };
        listed.push(list_verdict(alloc, labels, subject, holds)?)?;
    }
    Ok(())
}

/// Adds the verdicts on the accesses of a point.
fn push_told(
    alloc: Global,
    labels: &Labels,
    number: u32,
    site: &Site,
    told: &[(Place, bool)],
    listed: &mut Vec<Verdict>,
) -> Result<(), AllocError>
    ensures { IfOk result (λ _. map verdict_of listed.new.items ≡ map verdict_of listed.old.items ++
        access_verdicts labels.now.labels number (site_view site.now) 0 told.now) }
{
    'accesses: for (which, access) in told.iter().enumerate() {
        let (place, is_inside) = *access;
        let subject = Subject {
            kind: VerdictKind::Access,
            number,
            site,
            which,
            place,
        };
        listed.push(list_verdict(alloc, labels, subject, is_inside)?)?;
    }
    Ok(())
}

/// Adds those on all accesses.
fn push_accesses(
    alloc: Global,
    labels: &Labels,
    sites: &[Site],
    inside: &[(usize, Vec<(Place, bool)>)],
    listed: &mut Vec<Verdict>,
) -> Result<(), AllocError>
    requires numbers { length sites.now < 2 ^ 32 }
    requires there { All (λ v. v.0 < length sites.now) inside.now }
    ensures { IfOk result (λ _. map verdict_of listed.new.items ≡ map verdict_of listed.old.items ++
        flat_map (access_verdicts_at labels.now.labels (map site_view sites.now)) (map reported_view inside.now)) }
{
    'points: for point in inside {
        let (index, told) = point;
        let site = &sites[*index];
        push_told(
            alloc,
            labels,
            number_of(*index),
            site,
            told.as_slice(),
            listed,
        )?;
    }
    Ok(())
}

/// What a report lists of a source: its tree, the table of its labels, and its points.
#[derive(Clone, Copy)]
pub struct Outline<'a> {
    pub tree: &'a TranslationUnit,
    pub labels: &'a Labels,
    pub sites: &'a [Site],
}

/// What an analysis found, beside its states: verdicts on assertions, and on points at which something is computed
/// if it is asked what fits, each in order, with its point's number and whether it holds; of points at which arrays
/// are accessed, in order, what is reported about each access; and the first flagged point.
#[derive(Clone, Copy)]
pub struct Findings<'a> {
    pub assertions: &'a [(usize, bool)],
    pub fitting: &'a [(usize, bool)],
    pub inside: &'a [(usize, Vec<(Place, bool)>)],
    pub flagged: Option<usize>,
}

/// All verdicts, as a report lists them.
pub fn list_verdicts(
    alloc: Global,
    labels: &Labels,
    sites: &[Site],
    found: &Findings<'_>,
) -> Result<Vec<Verdict>, AllocError>
    requires numbers { length sites.now < 2 ^ 32 }
    requires assertions { All (λ v. v.0 < length sites.now) found.now.assertions.now }
    requires fitting { All (λ v. v.0 < length sites.now) found.now.fitting.now }
    requires inside { All (λ v. v.0 < length sites.now) found.now.inside.now }
    ensures { IfOk result (λ vs. map verdict_of vs.items ≡
        map (verdict_at labels.now.labels (map site_view sites.now) Assertion)
        found.now.assertions.now ++
        (map (verdict_at labels.now.labels (map site_view sites.now) Fit) found.now.fitting.now ++
        flat_map (access_verdicts_at labels.now.labels (map site_view sites.now))
        (map reported_view found.now.inside.now))) }
{
    let mut listed = Vec::new(alloc);
    let asserted = VerdictKind::Assertion;
    push_verdicts(
        alloc,
        labels,
        sites,
        asserted,
        found.assertions,
        &mut listed,
    )?;
    push_verdicts(
        alloc,
        labels,
        sites,
        VerdictKind::Fit,
        found.fitting,
        &mut listed,
    )?;
    push_accesses(alloc, labels, sites, found.inside, &mut listed)?;
    Ok(listed)
}

/// The report of what an analysis found in a source, whose points are numbered from 0 here, and the state at each of
/// them.
pub fn list(
    alloc: Global,
    outline: &Outline<'_>,
    options: Options,
    states: Vec<Vec<Part>>,
    found: &Findings<'_>,
) -> Result<Report, AllocError>
    requires graph { (g : Node) × IsInlinedTree (resolve (tree_view outline.now.tree.now)) g }
    requires labels { outline.now.labels.now.labels ≡ labels_of (tree_view outline.now.tree.now) }
    requires sites { map site_view outline.now.sites.now ≡ sites_of (resolve (tree_view outline.now.tree.now)) }
    requires numbers { length outline.now.sites.now < 2 ^ 32 }
    requires states { AreInvariants (map site_view outline.now.sites.now) (map (λ x. x.items) states.items) }
    requires verdicts { AreVerdicts (map site_view outline.now.sites.now) found.now.assertions.now }
    requires fitting { (g : Node) → IsInlinedTree (resolve (tree_view outline.now.tree.now)) g →
        AreFitting options.fits g (map site_view outline.now.sites.now) found.now.fitting.now }
    requires inside { (g : Node) → IsInlinedTree (resolve (tree_view outline.now.tree.now)) g →
        AreAccessVerdicts g (map site_view outline.now.sites.now)
        (map reported_view found.now.inside.now) }
    requires flag { (q : ℕ) → found.now.flagged ≡ Some q → q < length outline.now.sites.now }
    ensures lists { IfOk result (λ r. Lists (tree_view outline.now.tree.now) (report_of r)) }
    ensures states { IfOk result (λ r. map state_of (report_of r).points ≡ map (λ x. x.items) states.items) }
    ensures verdicts { IfOk result (λ r. map reported_of (report_of r).verdicts ≡
        reported_all found.now.assertions.now found.now.fitting.now (map reported_view found.now.inside.now)) }
    ensures options { IfOk result (λ r. r.options ≡ options) }
    ensures flag { IfOk result (λ r. r.flagged ≡ option_map suc found.now.flagged) }
{
    let globals = names_of_globals(alloc, outline.tree)?;
    let points = list_points(alloc, outline.labels, &globals, outline.sites, states)?;
    let verdicts = list_verdicts(alloc, outline.labels, outline.sites, found)?;
    let flagged = match found.flagged {
        None => None,
        Some(index) => Some(number_of(index)),
    };
    Ok(Report {
        options,
        flagged,
        points,
        verdicts,
    })
}
