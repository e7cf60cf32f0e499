//! The page of a report, `report/page.html`, from which `report/build` writes this file.

/// The page up to its report.
pub(crate) const HEAD: &str = r#"<!doctype html>
<html lang="en">
<head>
<meta charset="utf-8">
<meta http-equiv="Content-Security-Policy" content="default-src 'none'; script-src 'sha256-ppScfpDKWGyKScVTmb89vqIc/4KHBFpRN99lh8Yep0U='; style-src 'sha256-Sa/bcERnPpFmw+weoDfErq+OoKo9cuKjOXv+alQSW30='; base-uri 'none'; form-action 'none'; require-trusted-types-for 'script'; trusted-types 'none'">
<meta name="viewport" content="width=device-width, initial-scale=1">
<title>sioaudit report</title>
<style>
:root {
  color-scheme: light dark;
  --ground: light-dark(#f5f6f8, #0e1217);
  --card: light-dark(#fff, #161c23);
  --hover: light-dark(#eef2f7, #1f2831);
  --line: light-dark(#d9dee5, #2f3945);
  --text: light-dark(#161b22, #e3e8ee);
  --soft: light-dark(#566070, #9aa6b4);
  --link: light-dark(#005a96, #6fbcf0);
  --mono: ui-monospace, "DejaVu Sans Mono", Menlo, Consolas, monospace;
  font: 15px/1.5 system-ui, sans-serif;
}
[data-theme=light] { color-scheme: light }
[data-theme=dark] { color-scheme: dark }
/* Okabe and Ito's colours */
.yes, .came { --look: #009e73 }
.lost, .delivery { --look: #d55e00 }
.doubled { --look: #e69f00 }
.extra { --look: #cc79a7 }
.swapped, .packets { --look: #0072b2 }
.content { --look: #f0e442 }
.record { --look: #56b4e9 }
.recording { --look: #8d99a8 }
* { box-sizing: border-box }
body { margin: 0; background: var(--ground); color: var(--text) }
body.over { outline: 3px dashed var(--link); outline-offset: -6px }
header, main { max-width: 1720px; margin: auto; padding: 0 clamp(10px, 2.5vw, 32px) }
header, form, .key, .session h2 { display: flex; flex-wrap: wrap; align-items: center; gap: 4px 12px }
header { padding-block: 14px }
h1 { flex: 1; margin: 0; font-size: 1.15rem }
h2 { margin: 0 0 10px; font-size: 1rem }
h3 { margin: 20px 0 8px }
figure { margin: 12px 0 0 }
button, select, input, .file { font: inherit; font-size: .88rem; color: inherit; background: var(--card); border-radius: 7px; padding: 5px 10px }
button, select, input, .file, .card, .picture, output { border: 1px solid var(--line) }
button, .file, summary, .mark, .row, [data-line] { cursor: pointer }
:focus-visible, .file:focus-within { outline: 2px solid var(--link); outline-offset: 2px }
a { color: var(--link) }
code { font-family: var(--mono); font-size: .9em; overflow-wrap: anywhere; unicode-bidi: isolate }
.path { overflow-wrap: normal }
small { font-weight: 400 }
.soft, h3, small, dt, label, .key, summary { color: var(--soft); font-size: .85rem }
[type=file] { position: absolute; left: 0; width: 1px; height: 1px; opacity: 0 }
.card > :last-child { margin-bottom: 0 }
.card { background: var(--card); border-radius: 12px; padding: clamp(10px, 1.6vw, 20px); margin-bottom: 16px }
.note { border-left: 4px solid var(--look, #e69f00); background: var(--hover); border-radius: 0 8px 8px 0; padding: 7px 12px; margin: 0 0 10px; white-space: pre-line }
.figures { display: grid; grid-template-columns: repeat(auto-fit, minmax(98px, 1fr)); gap: 10px 12px; margin: 0 0 16px }
.figures div { display: flex; flex-direction: column-reverse; justify-content: flex-end; line-height: 1.25 }
dd { margin: 0; font-size: 1.5rem; font-weight: 650 }
.fill { background: var(--look); min-width: 3px }
.key, .bars { padding: 0; margin: 8px 0 14px; list-style: none }
.key li { display: flex; align-items: center; gap: 6px }
.bars button { display: flex; align-items: center; width: 100%; border: 0; padding: 3px 4px; text-align: left }
.bars span:nth-last-child(3) { min-width: 84px }
.bars.by-cause span:nth-last-child(3) { min-width: 192px }
.meter { flex: 1; margin-right: 8px; height: 8px; border-radius: 4px; background: var(--line); overflow: hidden }
.meter span { display: block; height: 100% }
form { align-items: end; gap: 8px }
label:not(.file) { display: grid }
select, input { height: 32px }
select { max-width: 190px }
.text { flex: 1; min-width: 200px }
table { border-collapse: collapse; width: 100% }
th, td { text-align: left; padding: 5px 8px; border-bottom: 1px solid var(--line); vertical-align: top }
th, .session td { font-size: .88rem }
th { color: var(--soft); white-space: nowrap }
th button { border: 0; padding: 2px 4px; margin-left: -4px; font-weight: 600 }
th:first-child { width: 1% }
[aria-sort=ascending] button::after { content: " \2191" }
[aria-sort=descending] button::after { content: " \2193" }
button:hover, .file:hover, .row:hover, .open, [aria-pressed=true], [aria-current=true] { background: var(--hover) }
[aria-current=true] { box-shadow: inset 3px 0 var(--link) }
.fold { border: 0; padding: 0 4px; background: none }
.fold::before { content: "\25b8" }
.open .fold::before { content: "\25be" }
td.detail { padding: 0 0 18px }
.number { text-align: right; font-variant-numeric: tabular-nums; white-space: nowrap }
.sign { display: inline-grid; place-items: center; width: 20px; height: 20px; margin-right: 6px; border-radius: 5px; font-weight: 700; line-height: 1; color: #000; background: var(--look) }
.sign.swapped { color: #fff }
.session { padding: 14px clamp(2px, 1.2vw, 18px) 0; contain: inline-size }
.session p { margin: 4px 0; max-width: 92ch }
.columns { display: grid; grid-template-columns: repeat(auto-fit, minmax(min(100%, 420px), 1fr)); gap: 0 36px }
.wide { overflow-x: auto }
.cause { border-left: 4px solid var(--line); padding: 2px 0 2px 12px; margin-bottom: 12px }
.cause.sure { border-color: var(--link) }
.tag { border: 1px solid; border-radius: 99px; padding: 0 8px; font-size: .78rem; margin: 0 8px; color: var(--soft) }
.sure .tag { color: var(--link) }
.picture { display: flex; overflow-x: auto; border-radius: 10px 10px 0 0 }
.picture svg { flex: none; display: block }
.lanes { position: sticky; left: 0; flex: none; width: clamp(84px, 20vw, 140px); padding: 10px 0 0 8px; background: var(--card); border-right: 1px solid var(--line) }
.lanes div { display: grid; align-content: center; overflow: hidden; white-space: nowrap; font: 11px/1.35 var(--mono) }
.lanes small { font-size: 10px }
output { display: block; min-height: 2.5em; padding: 8px 12px; border-top: 0; border-radius: 0 0 10px 10px; background: var(--hover); font-size: .9rem }
svg text { font: 11px var(--mono); fill: var(--text) }
svg .dim { fill: var(--soft) }
.middle, .mark text { text-anchor: middle }
.name { display: none }
.rule { stroke: var(--line) }
.gap { fill: var(--hover) }
.turn { fill: #8d99a8; opacity: .45 }
.unknown, .replayed { fill: none; stroke: #8d99a8; stroke-dasharray: 4 3 }
.part { stroke: #d55e00; stroke-width: 2; stroke-dasharray: 5 4 }
.mark { outline: none }
.ink { fill: none; stroke: var(--text); stroke-width: 2; stroke-linecap: round; stroke-linejoin: round }
.full { fill: var(--look, var(--text)) }
.plate { fill: var(--look, var(--line)) }
.mark text { font-weight: 700; font-size: 13px; fill: #000; dominant-baseline: central }
.mark.swapped text { fill: #fff }
.many text { font-size: 11px }
.plain.many text { fill: var(--text) }
.ring { fill: transparent }
.mark:focus .ring, .mark[aria-pressed=true] .ring { stroke: var(--link); stroke-width: 2 }
.empty { text-align: center; padding: 12vh 12px }
@media (max-width: 1000px) { .c-cause { display: none } }
@media (max-width: 760px) { .c-nodes, .c-client { display: none } }
@media (max-width: 480px) { .c-count { display: none } td, th { padding-inline: 3px } }
@media print {
  :root { color-scheme: light; font-size: 11px; --ground: #fff }
  * { print-color-adjust: exact }
  form, .more, .fold, header button, .file, output, .lanes { display: none }
  .card { border: 0 }
  .picture { overflow: visible }
  .name { display: inline }
  .picture svg { flex: 0 1 auto; min-width: 0; height: auto }
  .cause, .picture { break-inside: avoid }
}
</style>
</head>
<body>
<header>
  <h1>sioaudit <small>delivery report</small></h1>
  <label class="file">Open a report <input type="file" id="file"></label>
  <button id="theme">Theme: system</button>
</header>
<main>
  <div id="refusal" role="alert"></div>
  <div id="view"></div>
</main>
<noscript><p class="note lost">This page needs its script, which is switched off.</p></noscript>
<script type="application/json" id="report">"#;

/// The page after its report.
pub(crate) const TAIL: &str = r#"</script>
<script>
// @ts-check
"use strict";

const VERSION = 1;

/** What each fault means. */
const FAULTS = /** @type {Record<string, string>} */ ({
  LOST: "an event that was due never came, and later ones did",
  DOUBLED: "an event came twice",
  SWAPPED: "an event came before an earlier one",
  EXTRA: "an event came that wasn't due",
  CONTENT: "an event isn't its entry of the stream, byte for byte",
  WINDOW: "the client asked to go on where that doesn't fit what it had",
  FRAME: "a record of the client's tap is no packet",
  ORPHAN: "an event came where no session was named",
  NOLOG: "no node opened the session",
  CHAIN: "the session's opens, breaks and recoveries don't fit together",
  ORDER: "a node of the session did not take the stream in order",
  CLIENT: "no client's tap has the session's reply, or several have",
  NAMES: "a reply carries another sid or namespace than the node's open",
  TAIL: "the last events that were due never came",
});
const CLASSES = ["delivery", "packets", "recording"];
const zeros = (/** @type {string[]} */ names) => Object.fromEntries(names.map(it => [it, 0]));
/** What a record is shown for. */
const ROLES = /** @type {Record<string, string>} */ ({
  fault: "here it shows", entry: "the entry", reached: "reached here", room: "decides", left: "left after that", break: "", back: "", ask: "",
  reply: "", "fault LOST": "passes it over", "fault DOUBLED": "again", "fault SWAPPED": "too early", "fault EXTRA": "was not due",
  "fault CONTENT": "isn't the entry", "fault CHAIN": "does not fit in the turns", "fault ORPHAN": "of no known session",
  "fault TAIL": "the last received", "also LOST": "was due and did not come", "also SWAPPED": "too late",
});

/** @param {string | null} fault */
function faultOf(fault) {
  const name = fault ?? "";
  const look = name.toLowerCase();
  return { means: Object.hasOwn(FAULTS, name) ? FAULTS[name] : "", look: Object.hasOwn(SIGNS, look) ? look : "record" };
}

// ---- Elements. Names and payloads become text nodes and plain attributes, never markup.

/** @typedef {Record<string, string | number | boolean | null | ((event: any) => void)>} Attributes */
/** @typedef {Node | string | null | undefined} Child */

/** @template {Element} E @param {E} node @param {Attributes} attributes @param {Child[]} children */
function filled(node, attributes, children) {
  for (const [name, value] of Object.entries(attributes)) {
    if (typeof value === "function") node.addEventListener(name, value);
    else if (value !== null) node.setAttribute(name, String(value));
  }
  node.append(...children.flatMap(it => it ?? []));
  return node;
}

/** @template {keyof HTMLElementTagNameMap} T @param {T} tag @param {Attributes} attributes @param {...Child} children */
const h = (tag, attributes = {}, ...children) => filled(document.createElement(tag), attributes, children);

/** @template {keyof SVGElementTagNameMap} T @param {T} tag @param {Attributes} attributes @param {...Child} children */
const s = (tag, attributes = {}, ...children) =>
  filled(document.createElementNS("http://www.w3.org/2000/svg", tag), attributes, children);

/** @param {string} id */
const byId = id => /** @type {HTMLElement} */ (document.getElementById(id));

/**
 * A text in which control characters, marks of direction and the like are spelled out.
 * @param {string} text
 */
const visible = text => text.replace(/[\p{Cc}\p{Cf}\u2028\u2029]/gu, it => `\\u{${it.codePointAt(0)?.toString(16)}}`);

/** How many sessions these explanations are of. @param {{ alike: string[] }[]} all */
const sizeOf = all => all.reduce((sum, it) => sum + 1 + it.alike.length, 0);

/** @param {string | null} text */
const code = text => text === null ? null : h("code", {}, visible(text));

/** @param {number} count */
const grouped = count => count.toLocaleString("en-US");

/** @param {number} count @param {string} one @param {string} [many] */
const counted = (count, one, many = `${one}s`) => `${grouped(count)} ${count === 1 ? one : many}`;

/** @param {number[]} span The first and the last. */
const spanned = ([first, last = first]) => (first === last ? `${first}` : `${first}\u2013${last}`);

/** @param {number[]} lines */
const inLines = lines => lines.length ? `${lines.length === 1 ? "line" : "lines"} ${lines.join(", ")}` : "";

/** @param {string} pid */
const linkTo = pid => `#${encodeURIComponent(pid)}`;

/** Of a long list those before and after what is left out. */
const FIRST = 100;

/** @template T @param {T[]} shown @param {number} left @param {(it: T) => Child} view @param {(words: string) => Child} [more] */
const listed = (shown, left, view, more = it => h("li", {}, it)) =>
  [...shown.slice(0, FIRST).map(it => view(it)), left > 0 ? more(`.. ${grouped(left)} more ..`) : null, ...shown.slice(FIRST).map(it => view(it))];

/** @param {{from: number | null, to: number | null}[]} runs How many frames these are. */
const framesOf = runs => runs.reduce((sum, { from, to }) => sum + (to ?? 0) - (from ?? 1) + 1, 0);

// ---- Reading a report

class Refusal extends Error {}

/** @template T @param {T} form @returns {T | null} */
const maybe = form => /** @type {any} */ ({ maybe: form });
const TEXT = maybe("");
const COUNT = maybe(0);

/** The forms of what docs/EXPLAIN.md describes, by example: a list has one for all its items, a span two. */
const ROW = { file: TEXT, file_line: COUNT, line: 0, of: TEXT, role: "", says: "", tap: "" };
const SESSION = {
  pid: "", verdict: "", fault: TEXT, class: TEXT, off: TEXT, client: TEXT, nsp: TEXT, conn: COUNT, got: COUNT, due: COUNT,
  tail: COUNT, at_frame: COUNT,
  evidence: [ROW], evidence_left: 0, also: [{ lines: [0], position: 0, to: 0 }], also_left: 0, alike: [""], causes: [{ id: "", lines: [0], of: "", of_line: COUNT, state: "", sure: false, todo: "", why: "" }], causes_left: 0,
  refuted: [""],
  events: [{ happens: "", lines: [0, 0], after: COUNT, from: COUNT, to: COUNT }], events_left: 0,
  refused: [{ ask: ROW, reply: maybe(ROW), instead: TEXT, missed: maybe([{ off: "", position: 0 }]), missed_left: COUNT, has_cause: false, refuted: [""] }], refused_left: 0,
  turns: [{ turn: 0, node: "", begin: "", end: "", low: 0, high: COUNT, lines: [0], took: maybe([0, 0]) }], turns_left: 0,
};
const SUMMARY = {
  sessions: 0, yes: 0, no: 0, unobserved: 0, lines: 0, bytes: 0, seconds: 0, tail: { events: 0, sessions: 0 },
  entries: { all: 0, recoverable: 0 },
  recoveries: { asked: 0, granted: 0, refused: 0 }, class: zeros(CLASSES), fault: zeros(Object.keys(FAULTS)),
  causes: /** @type {Record<string, number>} */ ({}), no_known_cause: 0,
};
const REFUSED = { file: TEXT, file_line: 0, header: maybe({ file: TEXT, file_line: 0, line: 0 }), help: "", line: 0, name: "" };

/** @typedef {typeof ROW} Row @typedef {typeof SESSION} Session @typedef {typeof SUMMARY} Summary */

/**
 * The path of the first member that isn't of its form, or null.
 * @param {any} value @param {any} form @param {string} path @returns {string | null}
 */
function misfit(value, form, path) {
  if (form.maybe !== undefined) return value === null ? null : misfit(value, form.maybe, path);
  if (typeof form !== "object") {
    return typeof value === typeof form && (form !== 0 || (Number.isSafeInteger(value) && value >= 0)) ? null : path;
  }
  const isList = Array.isArray(form);
  if (typeof value !== "object" || value === null || Array.isArray(value) !== isList) return path;
  if (form.length === 2 && value.length !== 2) return path;
  for (const it of Object.keys(isList ? value : form)) {
    const wrong = misfit(value[it], isList ? form[0] : form[it], isList ? path : `${path}.${it}`);
    if (wrong !== null) return wrong;
  }
  return null;
}

/** @param {string} line @param {number} number */
function parsedLine(line, number) {
  if (number === 1 && /^[\w.-]{1,32} *\{/.test(line)) {
    throw new Refusal("This is a bundle. Make a report of it: sioaudit explain --html < BUNDLE > report.html");
  }
  let value;
  try {
    value = JSON.parse(line);
  } catch {
    throw new Refusal(`Line ${number} is no JSON.`);
  }
  if (value?.v === undefined) throw new Refusal(`Line ${number} is not of sioaudit explain --json: it has no v.`);
  if (value.v !== VERSION) {
    throw new Refusal(`Line ${number} is of version ${visible(JSON.stringify(value.v))}; this page reads version ${VERSION}.`);
  }
  value.alike ??= [];
  const isRefused = "refused" in value && !("pid" in value);
  if (isRefused && value.refused) value.refused.header ??= null;
  const [form, inner] = "summary" in value ? [SUMMARY, value.summary] : isRefused ? [REFUSED, value.refused] : [SESSION, value];
  const wrong = misfit(inner, form, "");
  if (wrong !== null) throw new Refusal(`Line ${number}: the member ${wrong.slice(1) || "summary"} is missing, or of another form.`);
  if (form === REFUSED) throw new Refusal(refusedLine(inner));
  return value;
}

/**
 * The report that lines of JSON hold; it is read whole before anything is shown.
 * @param {string} text
 */
function parsedReport(text) {
  const sessions = /** @type {Session[]} */ ([]);
  const summaries = /** @type {Summary[]} */ ([]);
  text.split("\n").forEach((line, index) => {
    if (line.trim() === "") return;
    const value = parsedLine(line, index + 1);
    if (summaries.length > 0) throw new Refusal(`Line ${index + 1} follows the summary: two reports were joined.`);
    if ("summary" in value) summaries.push(value.summary);
    else sessions.push(value);
  });
  if (summaries.length === 0) throw new Refusal("The summary is missing: the report was cut off.");
  return { sessions, summary: summaries[0] };
}

/** @param {typeof REFUSED} refused */
function refusedLine({ file, file_line, header, help, line, name }) {
  const where = file === null ? "" : `That is line ${file_line} of ${visible(file)}.\n`;
  const all = help.split("\n").map(visible).join("\n");
  const begin = header === null || header.file === null ? "" : `Its tap begins on line ${header.file_line} of ${visible(header.file)}.\n`;
  return `The recording was not audited: its line ${line} is refused, ${visible(name)}.\n${where}${all}${begin}`;
}

// ---- The summary

/** @param {Summary} summary */
function warningsOf({ sessions, entries, unobserved, tail, recoveries }) {
  if (sessions === 0) return ["Nothing was judged: no session was recorded."];
  return [
    entries.recoverable === 0 ? "A yes says nothing here: no entry of the stream is recoverable." : "",
    unobserved > 0 ? `${counted(unobserved, "session was", "sessions were")} named by no client: what came is not known. Are all clients tapped?` : "",
    tail.events > 0 ? `${counted(tail.events, "event stands", "events stand")} in tails of ${counted(tail.sessions, "session")}: on the way at the end, or lost.` : "",
    recoveries.refused > 0 ? `${counted(recoveries.refused, "recovery was", "recoveries were")} refused or not answered: no verdict counts what such a client missed.` : "",
    recoveries.asked === 0 ? "No recovery was asked for: nothing is said of recoveries." : "",
  ].filter(Boolean);
}

/**
 * The word under which a session is listed.
 * @param {Session} session
 */
const nameOf = ({ fault, refused, verdict }) => fault ?? (refused.length > 0 ? "refused" : verdict);

/** @param {string} name */
function sign(name) {
  const { look } = faultOf(name);
  return h("span", { class: `sign ${look}`, "aria-hidden": "true" }, SIGNS[look][0]);
}

/**
 * A bar for each that has a count; its button filters the list.
 * @param {string} name @param {Record<string, number>} counts @param {(name: string, value: string) => void} choose
 */
function barsOf(name, counts, choose) {
  const found = Object.entries(counts).filter(([, count]) => count > 0).sort((a, b) => b[1] - a[1]);
  return h("ul", { class: `bars by-${name}`, "aria-label": `by ${name}` }, ...found.map(([value, count]) => {
    const bar = h("span", { class: `fill ${name === "fault" ? faultOf(value).look : name === "cause" ? "recording" : value}` });
    bar.style.width = `${(100 * count) / found[0][1]}%`;
    return h("li", {}, h("button", { title: faultOf(value).means, "data-by": name, "data-value": value, click: () => choose(name, value) },
      name === "fault" ? sign(value) : null, h("span", {}, visible(value)), h("span", { class: "meter" }, bar),
      h("span", { class: "number" }, grouped(count))));
  }));
}

/** @param {Summary} summary @param {(name: string, value: string) => void} choose */
function summaryCard(summary, choose) {
  const { sessions, yes, no, recoveries, tail, unobserved, entries, lines, bytes, seconds } = summary;
  const warnings = warningsOf(summary);
  const figures = {
    sessions, "answered yes": yes, "answered no": no,
    "recoveries asked for": recoveries.asked, granted: recoveries.granted, refused: recoveries.refused,
    "sessions with a tail": tail.sessions, "events in tails": tail.events, "sessions that no client named": unobserved,
    "entries of the stream": entries.all, recoverable: entries.recoverable,
  };
  return h("section", { class: "card" }, h("h2", {}, "The recording"),
    ...warnings.map(it => h("p", { class: "note" }, it)),
    warnings.length === 0 && no === 0 ? h("p", { class: "note yes" }, "Each session's client got what was due to it.") : null,
    h("dl", { class: "figures" }, ...Object.entries(figures).map(([name, count]) =>
      h("div", {}, h("dt", {}, name), h("dd", {}, grouped(count))))),
    h("div", { class: "columns" }, barsOf("class", { yes, ...summary.class }, choose), barsOf("fault", summary.fault, choose),
      barsOf("cause", { ...summary.causes, [NO_CAUSE]: summary.no_known_cause }, choose)),
    h("p", { class: "soft" }, `Input: ${counted(lines, "line")}, ${counted(bytes, "byte")}, ${counted(seconds, "second")}.`));
}

// ---- The picture: the positions of the stream across, a lane for each that recorded the session

/**
 * A place on the axis: a whole number is the entry of that position, and n + 0.5 is the cursor that stands after entry n.
 * @typedef {number} Place
 * @typedef {{at: Place, shape: string, look: string, label: string, line: number | null, tap: string, weight: number}} Mark
 * @typedef {{from: Place, to: Place, look: string, label: string}} Bar
 * @typedef {{from: number, to: number, lines: number[], frame: number}} Run Frames of consecutive entries; the first one's number.
 * @typedef {{name: string, note: string, kind: string, lines: number[], marks: Mark[], bars: Bar[], runs: Run[]}} Lane
 * @typedef {{lo: Place, hi: Place, x: number, width: number, isFold: boolean}} Slot A fold stands for the entries lo to hi.
 * @typedef {Map<Slot, {marks: Mark[], frames: number}>} Groups
 * @typedef {(it: Mark, node: Element) => void} Choose
 * @typedef {{row: Lane, groups: Groups, height: number, y: number}} Placed
 */

const MOST_ENTRIES = 64;
const WHOLE_ENTRIES = 26;
const MOST_ROWS = 14;
const MOST_SIGNS = 100;
const LANE = 36;
const STEP = 22;
const GOT = /^conn \d+ got /;

/** @param {string} name @param {string} kind @param {string} [note] @returns {Lane} */
const lane = (name, kind, note = "") => ({ name, note, kind, lines: [], marks: [], bars: [], runs: [] });

/** @param {{at: Place, shape: string, label: string} & Partial<Mark>} given @returns {Mark} */
const mark = given => ({ look: "plain", line: null, tap: "", weight: 2, ...given });

/** @param {number} at @param {number[]} span */
const isIn = (at, [first, last]) => first <= at && at <= last;

/**
 * The place that a record tells, as far as its words tell one.
 * @param {Row} row
 */
function placeOf({ says }) {
  const entry = /^(?:entry|take|takes up to|conn \d+ got) (\d+) /.exec(says);
  const cursor = /^(?:start|open|break|back)\b.*, cursor (\d+)$/s.exec(says);
  return entry ? Number(entry[1]) : cursor ? Number(cursor[1]) + 0.5 : null;
}

/**
 * A record's file and its line there, where several files were read.
 * @param {Row} row
 */
const fileOf = ({ file, file_line }) => (file === null ? "" : visible(`${file}:${file_line}`));

/** @param {Row} row */
const saysOf = ({ says, of }) => (of === null ? says : `${says} of ${of}`);

/** @param {Session} session @param {Row} row */
const roleOf = ({ fault }, { role }) => ROLES[`${role} ${fault}`] ?? ROLES[role] ?? role;

/** @param {Session} session @param {Row} row @param {Place} at @param {string} shape */
function recordMark(session, row, at, shape) {
  const [role, file] = [roleOf(session, row), fileOf(row)];
  const look = row.role === "fault" ? { shape: "sign", look: faultOf(session.fault).look } : { shape };
  const label = `${visible(saysOf(row))}${role && ` \u2014 ${role}`}${file && ` (${file})`}`;
  return mark({ at, label, line: row.line, tap: row.tap, weight: 3, ...look });
}

/**
 * The lanes of the nodes: the session's turns, and the evidence of these nodes.
 * @param {Session} session @param {Row[]} rows
 */
function nodeLanes(session, rows) {
  /** @type {Record<string, Lane>} */
  const lanes = Object.create(null);
  const of = (/** @type {string} */ name) => (lanes[name] ??= lane(name, "node"));
  const ends = new Map(rows.filter(it => /^(open|back|break|gone)\b/.test(it.says)).map(it => [`${it.tap} ${it.line}`, it]));
  const left = new Set(rows);
  let reached = 0;
  for (const [index, it] of session.turns.entries()) {
    const { turn, node, begin, end, low, high, lines } = it;
    if (index === FIRST && session.turns_left > 0) reached = low;
    const { bars, marks } = of(node);
    const last = high === null ? null : lines[lines.length - 1];
    const both = /** @type {[number | null, Place, string, string][]} */ ([
      [lines[0], low + 0.5, begin, `begins: ${begin}, cursor ${low}`],
      [last, (high ?? low) + 0.5, end, high === null ? "has no record of its end" : `ends: ${endOf(end)}, cursor ${high}`],
    ]);
    for (const [line, at, shape, label] of both) {
      const row = ends.get(`${node} ${line}`);
      if (row) left.delete(row);
      marks.push(row ? recordMark(session, row, at, shape) : mark({ at, shape, label: `turn ${turn} ${label}`, line, tap: node }));
    }
    if (turn > 0 && low > reached) {
      bars.push({ from: reached + 0.5, to: low + 0.5, look: "replayed", label: `turn ${turn}: taken before the session came back` });
    }
    const look = high === null ? "unknown" : "turn";
    bars.push({ from: low + 0.5, to: (high ?? low + 1) + 0.5, look, label: `turn ${turn}: ${tookOf(it)}` });
    reached = Math.max(reached, low, high ?? 0);
  }
  const entry = rows.find(it => it.role === "reached");
  for (const row of left) {
    const change = /^(join|leave) /.exec(row.says)?.[1];
    of(row.tap).marks.push(recordMark(session, row, (change ? changePlace(session, row, entry) : placeOf(row)) ?? 0.5, change ?? "record"));
  }
  return Object.values(lanes);
}

/**
 * Where a join or a leave is drawn: before or after the take of the entry, else where its turn begins.
 * @param {Session} session @param {Row} row @param {Row | undefined} entry @returns {Place}
 */
function changePlace(session, row, entry) {
  const at = entry?.tap === row.tap ? placeOf(entry) : null;
  if (entry && at && Number.isInteger(at)) return at + (row.line < entry.line ? -0.5 : 0.5);
  return (session.turns.filter(it => it.node === row.tap && it.lines[0] <= row.line).at(-1)?.low ?? 0) + 0.5;
}

/** @param {Session["turns"][number]} turn */
const tookOf = ({ took, high }) => `took ${took ? spanned(took) : high === null ? "what nobody knows" : "nothing"}`;

/** @param {string} end */
const endOf = end => (end === "log" ? "the node's log ends" : end);

/** @param {Session["turns"][number]} it */
const turnWords = it =>
  `turn ${it.turn}: ${visible(it.node)}, line ${it.lines[0]} ${it.begin}, cursor ${it.low}; ${tookOf(it)}; ${
    it.high === null ? "no record says that it ended" : `line ${it.lines.at(-1)} ${endOf(it.end)}, cursor ${it.high}`}`;

/** @param {Session["events"][number]} event */
const eventWords = ({ happens, after, from, to }) =>
  ({
    asks: after === null ? "asks, with no known offset" : `asks to go on after entry ${after}`, got: `got ${spanned([from ?? 0, to ?? 0])}`,
    reply: "reply: this session", refused: "refused: another session, or none", lost: "the connection is lost",
  })[happens] ?? happens;

/** @param {Session} session The first frame after the events that are left out; below 1 where it isn't known. */
const frameAfter = ({ got, events }) => (got === null ? -Infinity : got + 1 - framesOf(events.slice(FIRST)));

/**
 * The row of the events that are left out, up to where the next one goes on. Its run isn't drawn.
 * @param {Session} session
 */
function gapLane(session) {
  const { client, events, events_left } = session;
  const next = events.slice(FIRST).find(it => it.from !== null || it.after !== null);
  const to = next?.from ? next.from - 1 : next?.after ?? 0;
  const lines = [events[FIRST - 1].lines[1] + 1, events[FIRST].lines[0] - 1];
  const runs = [{ from: 1, to, lines, frame: frameAfter(session) - to }];
  return { ...lane(client ?? "", "gap", `${counted(events_left, "event")} left out`), lines, runs };
}

/**
 * The rows of the client: one begins with a connection, and where a frame goes back in the stream.
 * @param {Session} session @param {Row[]} rows The evidence of clients' taps.
 */
function clientLanes(session, rows) {
  const tap = session.client ?? "";
  const left = new Set(rows);
  /** @type {Lane[]} */
  const lanes = [];
  let [isOpen, isReplied, last, cursor, frame] = [false, false, 0, (session.turns[0]?.low ?? 0) + 0.5, 1];
  for (const [index, event] of session.events.entries()) {
    const { happens, lines, from, to, after } = event;
    if (index === FIRST && session.events_left > 0) {
      lanes.push(gapLane(session));
      [isOpen, cursor, frame] = [false, lanes[lanes.length - 1].runs[0].to + 0.5, frameAfter(session)];
    }
    const isBack = from !== null && from <= last;
    const isNew = !isOpen || happens === "asks" || (happens === "reply" && isReplied);
    if (isNew || isBack) {
      lanes.push(lane(tap, "client"));
      [isOpen, isReplied, last] = [true, isReplied && !isNew, 0];
    }
    const here = lanes[lanes.length - 1];
    here.lines = [here.lines[0] ?? lines[0], lines[1]];
    if (from !== null && to !== null) {
      here.runs.push({ from, to, lines, frame });
      [frame, last, cursor] = [frame + to - from + 1, to, to + 0.5];
      continue;
    }
    if (happens === "asks") cursor = (after ?? 0) + 0.5;
    const row = rows.find(it => it.line === lines[0] && it.tap === tap && !GOT.test(it.says) && left.delete(it));
    const found = { at: cursor, shape: happens, label: eventWords(event), line: lines[0], tap };
    here.marks.push(row ? recordMark(session, row, cursor, happens) : mark(found));
    if (happens === "reply") isReplied = true;
    if (happens === "lost" || happens === "refused") isOpen = false;
  }
  for (const row of left) placeEvidence(session, row, lanes);
  for (const row of rows) {
    const found = lanes.find(it => it.kind === "client" && tap === row.tap && isIn(row.line, it.lines));
    if (found) found.name = `${tap}, ${/^conn \d+/.exec(row.says)?.[0]}`;
  }
  for (const it of lanes) it.note ||= `line ${spanned(it.lines)}`;
  return lanes;
}

/**
 * Puts a record into the row whose lines hold its line; one of no known session, or of another tap, into its own.
 * @param {Session} session @param {Row} row @param {Lane[]} lanes
 */
function placeEvidence(session, row, lanes) {
  const isGot = GOT.test(row.says);
  const ofTap = lanes.filter(it => it.name === row.tap);
  const at = placeOf(row) ?? (ofTap.flatMap(it => it.runs).filter(it => it.lines[1] <= row.line).at(-1)?.to ?? 0) + 0.5;
  const has = (/** @type {Run} */ { from, to, lines }) => isIn(at, [from, to]) && isIn(row.line, lines);
  const holding = ofTap.filter(it =>
    it.kind === "other" || (it.kind === "gap" ? isIn(row.line, it.lines) : isGot ? it.runs.some(has) : session.fault !== "ORPHAN" && it.lines[0] <= row.line));
  const target = (row.role === "earlier" ? holding[0] : holding.at(-1)) ?? lane(row.tap, "other");
  if (!lanes.includes(target)) lanes.push(target);
  target.lines = [target.lines[0] ?? row.line, Math.max(row.line, target.lines[1] ?? 0)];
  const it = recordMark(session, row, at, "record");
  // Where an entry is lost, the frame that passes it over is sound.
  if (isGot && session.fault === "SWAPPED") Object.assign(it, { shape: "sign", look: "swapped" });
  else if (isGot && (session.fault === "LOST" || row.role !== "fault")) Object.assign(it, { shape: "came", look: "came" });
  target.marks.push(it);
}

/**
 * The lane of what was due, as far as the report tells it; marks what is wrong in what came.
 * @param {Session} session @param {Lane[]} came @param {number | null} entry The entry at which they part.
 */
function dueLane(session, came, entry) {
  const due = lane("due", "due");
  const before = session.at_frame ?? Infinity;
  for (const run of came.filter(it => it.kind !== "gap").flatMap(it => it.runs)) {
    const to = Math.min(run.to, run.from + before - 1 - run.frame);
    if (to >= run.from) due.runs.push({ ...run, to });
  }
  const { fault, also, evidence } = session;
  const shown = evidence.filter(it => it.role === "fault").map(placeOf);
  const single = [entry, ...shown].filter(at => at !== null).map(at => ({ position: at, to: at, lines: [] }));
  for (const it of ["LOST", "DOUBLED", "SWAPPED", "TAIL"].includes(fault ?? "") ? [...single, ...also] : []) {
    for (const [from, to] of outside(due.runs, [it.position, it.to])) due.runs.push({ from, to, lines: [], frame: 0 });
  }
  const known = framesOf(due.runs);
  if (known < (session.due ?? 0)) due.note = `${known} of ${session.due} told`;
  markWrong(session, came, fault === "LOST" && entry ? [{ position: entry, to: entry, lines: [] }, ...also] : also);
  return due;
}

/**
 * The parts of a span that none of the runs has.
 * @param {Run[]} runs @param {number[]} span
 */
function outside(runs, span) {
  let parts = [span];
  for (const { from, to } of runs) {
    parts = parts.flatMap(part => (to < part[0] || part[1] < from ? [part] : [[part[0], from - 1], [to + 1, part[1]]]));
  }
  return parts.filter(([from, to]) => from <= to);
}

/**
 * Marks entries with the fault where they came, or were passed over: of ranges with very many entries the first and the last.
 * The lines of `LOST` and `TAIL`, and of `CONTENT` the first of a longer range, are those of entries in the stream.
 * @param {Session} session @param {Lane[]} came @param {Session["also"]} wrong
 */
function markWrong({ fault, at_frame, client, evidence }, came, wrong) {
  const isLost = fault === "LOST";
  const stream = evidence.find(it => /^entry /.test(it.says))?.tap ?? "";
  const says = ROLES[`also ${fault}`] ?? ROLES[`fault ${fault}`];
  const areFew = wrong.reduce((sum, it) => sum + it.to - it.position + 1, 0) <= MOST_SIGNS;
  for (const { position, to: last, lines } of wrong) {
    const range = last > position ? `, one of ${spanned([position, last])}` : "";
    for (let at = position; at <= last; at = areFew || at === last ? at + 1 : last) {
      const shows = (/** @type {Run} */ { from, to, frame }) => {
        const isHere = isLost ? to > at : isIn(at, [from, to]);
        return isHere && frame + (isLost ? to : at) - from >= (at_frame ?? 0);
      };
      const row = came.find(it => it.runs.some(shows));
      const label = `entry ${at}${range} ${says} ${inLines(lines)}`;
      const line = (at === last ? lines.at(-1) : at === position ? lines[0] : null) ?? null;
      const isEntry = isLost || fault === "TAIL" || (fault === "CONTENT" && at < last);
      const tap = isEntry ? stream : client ?? "";
      row?.marks.push(mark({ at, shape: "sign", look: faultOf(fault).look, label, line, tap, weight: 3 }));
    }
  }
}

/**
 * Of many rows those with evidence, the first and the last; the others are counted.
 * @param {Lane[]} rows
 */
function foldedRows(rows) {
  const kept = rows.filter((it, index) => index < 2 || index > rows.length - 3 || it.kind === "gap" || it.marks.some(mark => mark.weight === 3));
  const left = rows.filter(it => !kept.includes(it));
  const frames = framesOf(left.flatMap(it => it.runs));
  if (rows.length <= Math.max(MOST_ROWS, kept.length)) return rows;
  return [...kept, lane(`${left.length} rows more`, "fold", counted(frames, "frame"))];
}

/** @param {Session} session */
function lanesOf(session) {
  const { evidence, refused, client } = session;
  const entry = evidence.find(it => it.role === "entry");
  const focus = entry ? placeOf(entry) : null;
  const stream = lane("stream", "stream");
  for (const row of evidence.filter(it => /^entry /.test(it.says))) {
    stream.marks.push(recordMark(session, row, placeOf(row) ?? 0.5, "record"));
  }
  const seen = new Set(evidence.map(it => it.line));
  const asked = refused.flatMap(it => (it.reply ? [it.ask, it.reply] : [it.ask])).filter(it => it.tap === client && !seen.has(it.line));
  const came = clientLanes(session, [...evidence.filter(it => /^conn /.test(it.says)), ...asked]);
  const due = session.due === null ? [] : [dueLane(session, came, focus)];
  const missed = refused.filter(it => it.missed?.length).map(({ ask, missed, missed_left }) => ({
    ...lane("missed", "missed", `refused, line ${ask.line}${missed_left ? `; ${grouped(missed_left)} left out` : ""}`),
    marks: (missed ?? []).map(({ off, position: at }) => {
      const label = `entry ${at} ${visible(off)} was missed: the recovery was refused`;
      return mark({ at, shape: "sign", look: "lost", label, tap: ask.tap, weight: 3 });
    }),
  }));
  const nodes = nodeLanes(session, evidence.filter(it => !/^(conn|entry) /.test(it.says)));
  return { lanes: [stream, ...nodes, ...due, ...foldedRows(came), ...missed], focus };
}

/**
 * The slots of the axis: of few entries all, of many those with evidence, and those nearest to the fault.
 * @param {Lane[]} lanes @param {number | null} focus
 */
function slotsOf(lanes, focus) {
  /** @type {Map<number, number>} */
  const weights = new Map();
  const add = (/** @type {Place} */ at, /** @type {number} */ weight) => {
    const entry = Math.max(1, Math.floor(at));
    weights.set(entry, Math.max(weights.get(entry) ?? 0, weight));
  };
  for (const { marks, bars, runs } of lanes) {
    for (const it of marks) add(it.at, it.weight);
    for (const it of [...bars, ...runs]) [it.from, it.to].forEach(at => add(at, 1));
  }
  let most = 1;
  for (const at of weights.keys()) most = Math.max(most, at);
  for (let at = 1; at <= most && most <= WHOLE_ENTRIES; at += 1) add(at, 1);
  const far = (/** @type {number} */ at) => Math.abs(at - (focus ?? 0));
  const ranked = [...weights].sort((a, b) => b[1] - a[1] || far(a[0]) - far(b[0])).slice(0, MOST_ENTRIES);
  const shown = new Set(ranked.flatMap(([at, weight]) => (weight === 3 ? [at - 1, at, at + 1] : [at])).filter(at => isIn(at, [1, most])));
  /** @type {Slot[]} */
  const slots = [];
  const push = (/** @type {Place} */ lo, /** @type {Place} */ hi) => slots.push({ lo, hi, x: 0, width: 0, isFold: hi > lo });
  push(0.5, 0.5);
  let next = 1;
  for (const at of [...shown, most + 1].sort((a, b) => a - b)) {
    if (at - next > 2) {
      push(next, at - 1);
      push(at - 0.5, at - 0.5);
      next = at;
    }
    for (; next <= Math.min(at, most); next += 1) {
      push(next, next);
      push(next + 0.5, next + 0.5);
    }
  }
  return slots;
}

/** @param {Slot[]} slots @param {Place} at */
const slotAt = (slots, at) => slots.find(it => at <= it.hi) ?? slots[slots.length - 1];

/**
 * The marks of a lane by their slots; frames in a fold are only counted.
 * @param {Lane} row @param {Slot[]} slots @param {string} tap
 */
function groupsOf(row, slots, tap) {
  /** @type {Groups} */
  const groups = new Map();
  const group = (/** @type {Place} */ at) => {
    const slot = slotAt(slots, at);
    const found = groups.get(slot) ?? { marks: [], frames: 0 };
    groups.set(slot, found);
    return { slot, found };
  };
  for (const it of row.marks) group(it.at).found.marks.push(it);
  for (const { from, to, lines, frame } of row.kind === "gap" ? [] : row.runs) {
    for (let at = from; at <= to; at += 1) {
      const { slot, found } = group(at);
      if (slot.isFold) {
        const end = Math.min(to, slot.hi);
        found.frames += end - at + 1;
        at = end;
      } else if (row.kind === "due") found.marks.push(mark({ at, shape: "due", label: `entry ${at} was due`, tap: "session" }));
      else if (found.marks.length === 0) {
        const line = at === from ? lines[0] : at === to ? lines[1] : null;
        const label = `${frame > 0 ? `frame ${frame + at - from}: ` : ""}got entry ${at}${line === null ? `, on lines ${spanned(lines)}` : ""}`;
        found.marks.push(mark({ at, shape: "came", look: "came", label, line, tap }));
      }
    }
  }
  return groups;
}

/**
 * Gives the slots the room that their marks take, or more if there is more.
 * @param {Slot[]} slots @param {Groups[]} groups @param {number} room
 */
function spread(slots, groups, room) {
  for (const slot of slots) {
    const crowd = Math.max(0, ...groups.map(it => it.get(slot)?.marks.length ?? 0));
    const words = 7 * spanned([slot.lo, slot.hi]).length + 4;
    slot.width = Math.max(crowd * STEP + 4, slot.isFold ? 76 : 8, Number.isInteger(slot.lo) ? Math.max(26, words) : 0);
  }
  const factor = Math.min(3, Math.max(1, room / slots.reduce((sum, it) => sum + it.width, 0)));
  let x = 8;
  for (const slot of slots) {
    [slot.x, slot.width] = [x, slot.width * factor];
    x += slot.width;
  }
  return Math.max(x + 16, room);
}

const RING = "M6 0A6 6 0 1 1-6 0A6 6 0 1 1 6 0";
/** The strokes of each shape around its middle, its name, and how it is drawn, if not with ink. */
const SHAPES = /** @type {Record<string, [string, string, string?]>} */ ({
  came: [RING, "came", "full"],
  due: [RING, "due"],
  open: ["M-5-5H5V5H-5Z", "open"],
  back: ["M-5-7L7 0L-5 7Z", "taken back", "full"],
  break: ["M-5-5L5 5M5-5L-5 5", "break"],
  gone: ["M-5-5H5V5H-5Z", "session over", "full"],
  log: ["M0-8V-4M0-1V2M0 5V8", "log ends"],
  missing: ["M-4-4A4 4 0 1 1 0 1V3M0 7V7.2", "end missing"],
  join: ["M0-6V6M-5 1L0 6L5 1", "join"],
  leave: ["M0 6V-6M-5-1L0-6L5-1", "leave"],
  asks: ["M-5 8V-8L6-4L-5 0", "asks to go on after"],
  reply: ["M-6 0L-2 5L6-5", "reply"],
  refused: [`${RING}M-4-4L4 4`, "refused"],
  lost: ["M2-8L-3 1H3L-2 8", "connection lost"],
  record: ["M-6-7H6V7H-6ZM-3-3H3M-3 0H3M-3 3H3", "record"],
});
/** The signs of looks, and what they say. */
const SIGNS = /** @type {Record<string, [string, string]>} */ ({
  lost: ["\u2212", "did not come"], doubled: ["2", "came again"], swapped: ["\u21c4", "changed places"], extra: ["+", "was not due"],
  content: ["\u2260", "isn't its entry"], record: ["!", "at fault"], yes: ["\u2713", ""],
});

/** @param {string} shape @param {string} look @param {string} [words] */
function drawn(shape, look, words = SIGNS[look]?.[0] ?? "!") {
  if (Object.hasOwn(SHAPES, shape)) return [s("path", { class: SHAPES[shape][2] ?? "ink", d: SHAPES[shape][0] })];
  const half = 6 + 4 * words.length;
  return [s("rect", { class: "plate", x: -half, y: -10, width: 2 * half, height: 20, rx: 5 }), s("text", {}, words)];
}

/** @param {Mark} it @param {number} x @param {number} y @param {Choose} choose @param {string} [words] */
function markNode(it, x, y, choose, words) {
  const label = `${it.line === null ? "" : `line ${it.line}, `}${visible(it.tap)}: ${it.label}`;
  const node = s("g", {
    class: `mark ${it.look} ${it.shape}`, transform: `translate(${x} ${y})`, tabindex: 0, role: "button",
    "aria-label": label, "aria-pressed": "false", "data-at": it.at, "data-line": it.line,
  },
    s("title", {}, label), s("circle", { class: "ring", r: 13 }), ...drawn(it.shape, it.look, words));
  for (const event of ["click", "focus"]) node.addEventListener(event, () => choose(it, node));
  return node;
}

/**
 * The marks of a lane: side by side in a slot, counted in a fold.
 * @param {Lane} row @param {Groups} groups @param {number} y @param {Choose} choose
 */
function laneMarks(row, groups, y, choose) {
  return [...groups].sort(([a], [b]) => a.x - b.x).flatMap(([slot, { marks, frames }]) => {
    const middle = slot.x + slot.width / 2;
    if (!slot.isFold) return marks.map((it, index) => markNode(it, middle + (index - (marks.length - 1) / 2) * STEP, y, choose));
    const label = [`${spanned([slot.lo, slot.hi])}: ${counted(frames, "event")}`, ...marks.slice(0, 5).map(it => it.label)].join("; ");
    const { look = "plain", line = null } = marks.find(it => it.shape === "sign") ?? marks[0] ?? {};
    const fold = mark({ at: (slot.lo + slot.hi) / 2, shape: "many", look, label, line, tap: row.name });
    return [markNode(fold, middle, y, choose, `\u00d7${grouped(frames + marks.length)}`)];
  });
}

/** @param {Slot[]} slots @param {number} height */
const axisOf = (slots, height) => slots.filter(it => Number.isInteger(it.lo)).map(({ lo, hi, x, width, isFold }) =>
  s("g", { class: "cell", "data-from": lo, "data-to": hi },
    isFold
      ? s("rect", { class: "gap", x, y: 0, width, height })
      : s("line", { class: "rule", x1: x + width / 2, x2: x + width / 2, y1: 18, y2: height }),
    s("text", { class: "dim middle", x: x + width / 2, y: 13 }, spanned([lo, hi]))));

/** @param {Lane} row @param {Slot[]} slots @param {number} y */
const laneBars = (row, slots, y) => row.bars.map(({ from, to, look, label }) => {
  const [x, end] = [from, to].map(at => slotAt(slots, at)).map(it => it.x + it.width / 2);
  return s("rect", { class: look, x, y: y - 7, width: Math.max(3, end - x), height: 14, rx: 4 }, s("title", {}, label));
});

/**
 * The name of a lane, which stays where it is while the picture is scrolled.
 * @param {Placed} placed
 */
function laneName({ row: { name, note }, height }) {
  const node = h("div", { title: visible(`${name} ${note}`) }, visible(name), h("small", {}, note));
  node.style.height = `${height}px`;
  node.style.paddingTop = `${height - LANE}px`;
  return node;
}

/**
 * The line at which what came parts from what was due.
 * @param {Session} session @param {Placed[]} placed @param {Slot} slot
 */
function partingLine({ at_frame }, placed, slot) {
  const [due, came] = ["due", "client"].map(kind => placed.filter(({ row }) => row.kind === kind).at(-1)?.y ?? 0);
  return at_frame === null ? [] : [s("line", { class: "part", x1: slot.x, x2: slot.x, y1: due - 24, y2: came + 18, "data-at": slot.lo }),
    s("text", { x: slot.x + 5, y: due - 17 }, `parts at frame ${at_frame}`)];
}

/** @param {Placed[]} placed */
function legendOf(placed) {
  const marks = placed.flatMap(({ groups }) => [...groups.values()].flatMap(it => it.marks));
  const icon = (/** @type {string} */ shape, /** @type {string} */ look) =>
    s("svg", { width: 22, height: 22, viewBox: "-11 -11 22 22", "aria-hidden": "true" },
      s("g", { class: `mark ${look}` }, ...drawn(shape, look)));
  const has = (/** @type {string} */ it) => marks.some(({ shape, look }) => shape === "sign" && look === it);
  return h("ul", { class: "key" },
    ...Object.keys(SIGNS).filter(has).map(it => h("li", {}, icon("sign", it), SIGNS[it][1])),
    ...Object.keys(SHAPES).filter(it => marks.some(({ shape }) => shape === it)).map(it => h("li", {}, icon(it, it), SHAPES[it][1])));
}

/**
 * The picture of a session, and the words of the mark that is chosen.
 * @param {Session} session @param {number} room @param {(line: number | null) => void} onLine
 */
function pictureOf(session, room, onLine) {
  const { lanes, focus } = lanesOf(session);
  const slots = slotsOf(lanes, focus);
  let bottom = 10;
  const placed = lanes.map(row => {
    const height = row.kind === "due" ? LANE + 14 : LANE;
    bottom += height;
    return { row, groups: groupsOf(row, slots, session.client ?? ""), height, y: bottom - LANE / 2 };
  });
  const width = spread(slots, placed.map(it => it.groups), room - 176);
  const output = h("output", {}, "Choose a mark to see its record.");
  /** @type {Element | null} */
  let pressed = null;
  /** @type {Choose} */
  const choose = (it, node) => {
    pressed?.setAttribute("aria-pressed", "false");
    node.setAttribute("aria-pressed", "true");
    pressed = node;
    output.replaceChildren(h("b", {}, it.line === null ? "" : `line ${it.line} `), h("code", {}, visible(it.tap)), ` ${it.label}`);
    onLine(it.line);
  };
  const drawing = s("svg", {
    width, height: bottom, viewBox: `0 0 ${width} ${bottom}`, role: "group",
    "aria-label": `${lanes.length} lanes over the positions of the stream`,
  },
    ...axisOf(slots, bottom),
    ...placed.slice(1).map(({ y, height }) => y + LANE / 2 - height).map(y => s("line", { class: "rule", x1: 0, x2: width, y1: y, y2: y })),
    ...placed.map(({ row, groups, y }) =>
      s("g", { class: `lane ${row.kind}`, role: "group", "aria-label": `${visible(row.name)} ${row.note}` },
        ...laneBars(row, slots, y), ...laneMarks(row, groups, y, choose),
        s("text", { class: "name", x: 2, y: y - 9 }, visible(`${row.name} ${row.note}`)))),
    ...(focus === null ? [] : partingLine(session, placed, slotAt(slots, focus))));
  const frame = h("div", { class: "picture", tabindex: 0, role: "region", "aria-label": "Picture of the session" },
    h("div", { class: "lanes" }, ...placed.map(laneName)), drawing);
  if (focus !== null) requestAnimationFrame(() => { frame.scrollLeft = slotAt(slots, focus).x - frame.clientWidth / 2 + 120; });
  return h("figure", {}, frame, output, legendOf(placed));
}

// ---- A session in words

/** @param {Session} session @param {Row[]} rows @param {number} left @param {string} name @param {(line: number) => void} choose */
function rowsTable(session, rows, left, name, choose) {
  const ofFiles = rows.some(it => it.file !== null);
  return h("div", { class: "wide" }, h("table", { "aria-label": name },
    h("thead", {}, h("tr", {}, ...["line", "tap", "record", "shown for", ...(ofFiles ? ["file"] : [])].map(it => h("th", {}, it)))),
    h("tbody", {}, ...listed(rows, left, row => h("tr", { "data-line": row.line, click: () => choose(row.line) },
      h("td", { class: "number" }, String(row.line)), h("td", {}, code(row.tap)), h("td", {}, code(saysOf(row))),
      h("td", {}, row.role === "fault" ? h("b", {}, `\u2190 ${roleOf(session, row)}`) : roleOf(session, row)),
      ofFiles ? h("td", {}, h("code", { class: "path" }, ...fileOf(row).split(/(?<=\/)/).flatMap(it => [it, h("wbr")]))) : null), it => h("tr", {}, h("td", {}, it))))));
}

/** @param {Session} session */
function accountOf({ client, nsp, conn, turns, turns_left, got, due, tail, at_frame }) {
  const told = {
    client: client ?? "not one alone", namespace: nsp, connection: conn, turns: turns.length + turns_left, got, due: due ?? "not judged", tail,
    "differs at frame": at_frame,
  };
  return Object.entries(told).flatMap(([name, it]) => (it === null ? [] : `${name} ${visible(String(it))}`)).join(", ");
}

const STATES = /** @type {Record<string, string>} */ ({
  certain: "Of the known causes the records leave no other.", holds: "Others hold too, and can be true beside it.",
  fits: "The records don't decide between those that fit.",
});

/** @param {Session["causes"][number]} cause */
const causeView = ({ id, lines, of, of_line, state, sure, todo, why }) => h("div", { class: sure ? "cause sure" : "cause" }, h("b", {}, code(id)),
  h("span", { class: "tag", title: STATES[state] ?? "" }, visible(state)),
  h("span", { class: "soft" }, [inLines(lines), of === "refused" ? `of the ask${of_line === null ? "" : ` on line ${of_line}`}` : ""].filter(Boolean).join(", ")),
  h("p", {}, visible(why)), h("p", {}, h("b", {}, "Do: "), visible(todo)));

/** @param {string[]} refuted @param {string} of what no known cause of holds; empty where one does */
const refutedView = (refuted, of) => refuted.length === 0 ? null : h("details", {},
  h("summary", {}, of && `No known cause of the ${of} holds: `, counted(refuted.length, "was", "were"), " refuted"),
  h("ul", {}, ...refuted.map(it => h("li", {}, code(it)))));

/** @param {Session} session @param {Session["refused"][number]} refused @param {(line: number) => void} choose */
const refusedView = (session, { ask, reply, instead, missed, missed_left, has_cause, refuted }, choose) => h("div", {},
  h("p", {}, `The client got ${instead === null ? "no session" : "session "}`, code(instead),
    `; missed: ${missed === null ? "not known" : counted(missed.length + (missed_left ?? 0), "event")}.`),
  h("ul", {}, ...listed(missed ?? [], missed_left ?? 0, ({ off, position }) => h("li", {}, `entry ${position} `, code(off)))),
  rowsTable(session, reply === null ? [ask] : [ask, reply], 0, "The ask and its reply", choose), refutedView(refuted, has_cause ? "" : "refusal"));

/** @param {Session} session */
const wordsView = ({ turns, turns_left, events, events_left }) => h("details", {}, h("summary", {}, "The turns and the client in words"), h("div", { class: "columns" },
  h("ul", {}, ...listed(turns, turns_left, it => h("li", {}, turnWords(it)))),
  h("ul", {}, ...listed(events, events_left, it => h("li", {}, `lines ${spanned(it.lines)}: ${eventWords(it)}`)))));

/** @param {Session} session @param {number} room */
function sessionView(session, room) {
  const { pid, fault, off, evidence, evidence_left, also, also_left: left, alike, refused, refused_left, causes, causes_left, tail } = session;
  const view = h("section", { class: "session" });
  const onLine = (/** @type {number | null} */ line) => {
    for (const it of view.querySelectorAll("tr[data-line]")) it.setAttribute("aria-current", String(it.getAttribute("data-line") === `${line}`));
  };
  const onRow = (/** @type {number} */ line) => /** @type {SVGElement | null} */ (view.querySelector(`.mark[data-line="${line}"]`))?.focus();
  const others = also.map(it => `${it.to > it.position ? "entries" : "entry"} ${spanned([it.position, it.to])} (${inLines(it.lines)})`);
  const more = left > 0 ? ` and ${counted(left, "entry", "entries")} more` : "";
  view.append(h("h2", {}, sign(nameOf(session)), visible(nameOf(session)), h("a", { href: linkTo(pid) }, code(pid)), code(off)),
    h("p", {}, fault === null
      ? `What came is what was due${tail ? ", up to the last event that came" : ""}${refused.length > 0 ? "; a recovery was refused" : ""}.`
      : `${session.class}: ${faultOf(fault).means}.`),
    h("p", { class: "soft" }, accountOf(session)), pictureOf(session, room, onLine),
    h("div", { class: "columns" },
      fault === null ? null : h("div", {}, h("h3", {}, "Evidence"), rowsTable(session, evidence, evidence_left, "Evidence", onRow),
        others.length > 0 ? h("p", {}, `Also ${others.join(", ")}${more}.`) : null,
        alike.length > 0 ? h("p", {}, `The same of ${counted(alike.length, "more session")}: `, ...alike.slice(0, FIRST).map(it => h("span", {}, code(it), " ")),
          alike.length > FIRST ? `.. and ${grouped(alike.length - FIRST)} more` : null) : null),
      refused.length === 0 ? null : h("div", {}, h("h3", {}, "Refused recoveries"), ...listed(refused, refused_left, it => refusedView(session, it, onRow), it => h("p", {}, it))),
      fault === null && refused.length === 0 ? null : h("div", {}, h("h3", {}, "Causes"), ...listed(causes, causes_left, causeView, it => h("p", {}, it)), refutedView(session.refuted, isUnknown(session) ? "fault" : ""),
        causes.length + session.refuted.length === 0 ? "No causes are known." : null)),
    wordsView(session));
  return view;
}

// ---- The list of sessions

const BLOCK = 100;

/** @param {Session} session */
const nodesOf = ({ turns }) => [...new Set(turns.map(it => it.node))];

/** @param {Session} session */
const causesOf = ({ causes }) => causes.map(it => it.id);

/** What stands for a fault of which no known cause holds. */
const NO_CAUSE = "no known cause";

/** @param {Session} session */
const isUnknown = ({ causes, refuted }) => refuted.length > 0 && !causes.some(it => it.of === "fault");

/** The columns: name, class, and what it is sorted by. */
const COLUMNS = /** @type {[string, string, (session: Session) => string | number][]} */ ([
  ["fault", "", nameOf],
  ["session", "", it => it.pid],
  ["client", "c-client", it => it.client ?? ""],
  ["nodes", "c-nodes", it => nodesOf(it).join(", ")],
  ["got / due", "c-count number", it => (it.got ?? -1) - (it.due ?? -1)],
  ["cause", "c-cause", it => causesOf(it).join(", ")],
]);
const FILTERS = /** @type {[string, (session: Session) => (string | null)[]][]} */ ([
  ["fault", it => [it.fault, it.refused.length > 0 ? "refused" : null]],
  ["class", it => [it.class]],
  ["node", nodesOf],
  ["client", it => [it.client]],
  ["cause", it => [...new Set(causesOf(it)), isUnknown(it) ? NO_CAUSE : null]],
]);

/** The number of a filter. @param {string | null} name */
const filterOf = name => FILTERS.findIndex(([it]) => it === name);

/** @param {Session} session */
const wordsOf = session => [session.pid, ...session.alike, session.off, session.client, session.nsp, session.fault, session.class, ...nodesOf(session),
  ...session.causes.flatMap(it => [it.id, it.why]),
  ...session.evidence.map(saysOf), ...session.refused.flatMap(it => [it.instead, it.ask.says])].join("\n").toLowerCase();

/** The list of the sessions, drawn a block at a time. */
class SessionList {
  /** @param {Session[]} sessions */
  constructor(sessions) {
    this.sessions = sessions;
    this.open = new Set(sessions.length <= 3 ? sessions.slice(0, 1) : []);
    /** @type {Map<Session, HTMLTableRowElement>} */
    this.rows = new Map();
    this.found = sessions;
    this.column = -1;
    this.step = 1;
    this.selects = FILTERS.map(([name, values]) => this.selectOf(name, values));
    this.text = h("input", { type: "search", id: "text", placeholder: "a pid, an offset, a room, ..", input: () => this.update() });
    this.status = h("p", { class: "soft", role: "status" });
    this.body = h("tbody");
    this.heads = COLUMNS.map(([name, look], index) =>
      h("th", { class: look }, h("button", { click: () => this.sortBy(index) }, name)));
    this.more = h("button", { class: "more", click: () => this.draw() });
    this.section = h("section", { class: "card" }, h("h2", {}, "Sessions that are shown"),
      h("form", { role: "search", submit: it => it.preventDefault(), reset: () => setTimeout(() => this.update()) },
        ...FILTERS.map(([name], index) => h("label", {}, name, this.selects[index])), h("label", { class: "text" }, "text", this.text),
        h("button", { type: "reset" }, "Clear"), h("button", { type: "button", click: () => this.openAll() }, "Open all")),
      this.status,
      h("table", { class: "sessions" }, h("thead", {}, h("tr", {}, h("th", { "aria-label": "open" }), ...this.heads)), this.body),
      this.more);
    new IntersectionObserver(seen => seen.some(it => it.isIntersecting) && this.draw(), { rootMargin: "600px" }).observe(this.more);
  }

  /** @param {string} name @param {(session: Session) => (string | null)[]} values */
  selectOf(name, values) {
    /** @type {Map<string, number>} */
    const counts = new Map();
    const isShared = name === "fault" || name === "class" || name === "cause";
    for (const it of this.sessions) {
      for (const value of values(it)) if (value !== null) counts.set(value, (counts.get(value) ?? 0) + (isShared ? sizeOf([it]) : 1));
    }
    const options = [...counts].sort(([a], [b]) => (a < b ? -1 : 1)).map(([value, count]) =>
      h("option", { value }, `${visible(value)} (${grouped(count)})`));
    return h("select", { id: `by-${name}`, change: () => this.update() }, h("option", { value: "" }, "all"), ...options);
  }

  /**
   * Filters by a value, or no more where it is filtered by it already.
   * @param {string} name @param {string} value
   */
  choose(name, value) {
    const select = this.selects[filterOf(name)];
    select.value = select.value === value ? "" : value;
    this.update();
  }

  /**
   * Sorts by a column, a second time the other way round.
   * @param {number} index
   */
  sortBy(index) {
    [this.column, this.step] = [index, this.column === index ? -this.step : 1];
    this.heads.forEach((it, at) => it.setAttribute("aria-sort", at !== this.column ? "none" : this.step === 1 ? "ascending" : "descending"));
    this.update();
  }

  /** Finds the sessions that the filters ask for, and draws the first of them. */
  update() {
    const asked = this.selects.map(it => it.value);
    const text = this.text.value.trim().toLowerCase();
    this.found = this.sessions.filter(it =>
      asked.every((value, index) => value === "" || FILTERS[index][1](it).includes(value)) && (text === "" || wordsOf(it).includes(text)));
    const [, , key] = COLUMNS[this.column] ?? [];
    if (key) this.found.sort((a, b) => (key(a) < key(b) ? -this.step : key(a) > key(b) ? this.step : 0));
    for (const it of document.querySelectorAll("[data-by]")) {
      const value = asked[filterOf(it.getAttribute("data-by"))];
      it.setAttribute("aria-pressed", String(value === it.getAttribute("data-value")));
    }
    const [found, all, size] = [this.found.length, this.sessions.length, sizeOf(this.sessions)];
    this.status.textContent = all === 0
      ? "Nothing is to be explained."
      : `${grouped(found)} of ${size === all ? counted(all, "session") : `${counted(all, "explanation")} of ${grouped(size)} sessions`}.`;
    this.rows.clear();
    this.body.replaceChildren();
    this.draw();
  }

  draw() {
    this.body.append(...this.found.slice(this.rows.size, this.rows.size + BLOCK).flatMap(it => this.rowOf(it)));
    const left = this.found.length - this.rows.size;
    this.more.hidden = left === 0;
    this.more.textContent = `Show more: ${grouped(left)} left`;
  }

  /** @param {Session} session */
  rowOf(session) {
    const { pid, alike, client, got, due } = session;
    const name = nameOf(session);
    const cells = [
      h("b", {}, sign(name), visible(name)),
      h("span", {}, h("a", { href: linkTo(pid) }, code(pid)), alike.length > 0 ? ` and ${grouped(alike.length)} more` : null), code(client),
      nodesOf(session).slice(0, 8).map(visible).join(", "),
      due === null || got === null ? "\u2013" : `${grouped(got)} / ${grouped(due)}`, causesOf(session).map(visible).join(", "),
    ];
    const row = h("tr", { class: "row", click: it => it.target.closest("a") || this.toggle(session) },
      h("td", {}, h("button", { class: "fold", "aria-label": `Session ${visible(pid)}` })),
      ...cells.map((it, index) => h("td", { class: COLUMNS[index][1] }, it)));
    this.rows.set(session, row);
    return this.open.has(session) ? [row, this.opened(session, row)] : [this.marked(row, false)];
  }

  /** @param {HTMLTableRowElement} row @param {boolean} isOpen */
  marked(row, isOpen) {
    row.classList.toggle("open", isOpen);
    row.querySelector(".fold")?.setAttribute("aria-expanded", String(isOpen));
    return row;
  }

  /** @param {Session} session @param {HTMLTableRowElement} row */
  opened(session, row) {
    this.marked(row, true);
    return h("tr", {}, h("td", { class: "detail", colspan: COLUMNS.length + 1 }, sessionView(session, this.status.clientWidth)));
  }

  /** @param {Session} session */
  toggle(session) {
    const row = this.rows.get(session);
    if (this.open.delete(session)) {
      row?.nextElementSibling?.remove();
      if (row) this.marked(row, false);
    } else {
      this.open.add(session);
      row?.after(this.opened(session, row));
    }
  }

  openAll() {
    for (const it of this.found.slice(0, BLOCK)) if (!this.open.has(it)) this.toggle(it);
  }

  /**
   * Opens the session that a link names; where its row isn't drawn, it is filtered for.
   * @param {string} link
   */
  show(link) {
    const session = this.sessions.find(it => [it.pid, ...it.alike].some(pid => linkTo(pid) === link));
    if (!session) return;
    if (!this.rows.has(session)) {
      for (const it of this.selects) it.value = "";
      this.text.value = session.pid;
      this.update();
    }
    while (!this.rows.has(session)) this.draw();
    if (!this.open.has(session)) this.toggle(session);
    this.rows.get(session)?.scrollIntoView();
  }
}

// ---- The page

/** @type {SessionList | null} */
let list = null;

/** @param {string} reason */
const refuse = reason => byId("refusal").replaceChildren(h("p", { class: "note lost" }, reason));

/** @param {string} text @param {string} name */
function openReport(text, name) {
  try {
    const { sessions, summary } = parsedReport(text);
    const shown = new SessionList(sessions);
    byId("refusal").replaceChildren();
    byId("view").replaceChildren(summaryCard(summary, (name, value) => shown.choose(name, value)), shown.section);
    document.title = `sioaudit: ${grouped(summary.no)} no, ${grouped(summary.yes)} yes${name && `, ${name}`}`;
    list = shown;
    list.update();
    followLink();
  } catch (error) {
    if (!(error instanceof Refusal)) throw error;
    refuse(`${name && `${visible(name)} is not shown. `}${error.message}`);
  }
}

const followLink = () => list?.show(location.hash);

/** @param {File | undefined} file */
async function openFile(file) {
  if (!file) return;
  try {
    openReport(new TextDecoder("utf-8", { fatal: true }).decode(await file.arrayBuffer()), file.name);
  } catch (error) {
    if (!(error instanceof TypeError || error instanceof DOMException)) throw error;
    refuse(`${visible(file.name)} is not shown. It can't be read, or is no UTF-8.`);
  }
}

function stepTheme() {
  const { dataset } = document.documentElement;
  const next = { light: "dark", dark: "system" }[dataset.theme ?? ""] ?? "light";
  dataset.theme = next;
  byId("theme").textContent = `Theme: ${next}`;
}

/** @param {DragEvent} event */
function onDrag(event) {
  event.preventDefault();
  document.body.classList.toggle("over", event.type === "dragover");
  if (event.type === "drop") openFile(event.dataTransfer?.files[0]);
}

function begin() {
  const file = /** @type {HTMLInputElement} */ (byId("file"));
  file.addEventListener("change", () => openFile(file.files?.[0]));
  byId("theme").addEventListener("click", stepTheme);
  for (const it of /** @type {const} */ (["dragover", "dragleave", "drop"])) addEventListener(it, onDrag);
  addEventListener("hashchange", followLink);
  const text = byId("report").textContent ?? "";
  if (text.trim() !== "") openReport(text, "");
  else {
    byId("view").append(h("section", { class: "card empty" }, h("h2", {}, "Drop a report here"),
      h("p", {}, code("sioaudit explain --json < BUNDLE"), " writes one. It does not leave this page.")));
  }
}

begin();
</script>
</body>
</html>
"#;
