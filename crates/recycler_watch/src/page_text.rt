//! The page that a browser shows, before and after the lines of its moves.
//!
//! It needs nothing from a network: its style and its script stand in it. The script makes each state from the lines, and keeps
//! one every so often.

/// What stands before the lines.
pub const HEAD: &str = r##"<!doctype html>
<html lang="en">
<head>
<meta charset="utf-8">
<meta name="viewport" content="width=device-width, initial-scale=1">
<title>recycler_watch</title>
<style>
:root { color-scheme: light dark; --paper: #f6f7f8; --card: #ffffff; --ink: #1b1f24; --faint: #5b6470; --line: #d5d9de; --mark: #b5126b; --even: #d6e6f5; --odd: #b3d0ec; --curve: #1f6fb2; --area: #1f6fb222; --arrow: #4a5563; --key: #eceff2; --black: #20242a; }
@media (prefers-color-scheme: dark) { :root { --paper: #14171b; --card: #1d2126; --ink: #e8eaed; --faint: #a3acb8; --line: #3a414a; --mark: #ff7ab8; --even: #23405c; --odd: #31587d; --curve: #7fbdf2; --area: #7fbdf226; --arrow: #b4bdc9; --key: #2a3037; --black: #000000; } }
* { box-sizing: border-box; }
body { margin: 0 auto; max-width: 1680px; padding: 0 1.25rem 2rem; background: var(--paper); color: var(--ink); font: 14px/1.5 system-ui, -apple-system, "Segoe UI", "DejaVu Sans", sans-serif; font-variant-numeric: tabular-nums; }
header { display: flex; flex-wrap: wrap; gap: .25rem 1rem; align-items: baseline; padding: 1rem 0 .6rem; }
h1 { font-size: 1.15rem; margin: 0; } h2 { font-size: .78rem; letter-spacing: .06em; text-transform: uppercase; color: var(--faint); margin: 0 0 .5rem; font-weight: 600; }
header p { margin: 0; color: var(--faint); }
.card { background: var(--card); border: 1px solid var(--line); border-radius: 8px; padding: .75rem 1rem; margin-bottom: .8rem; }
#now { position: sticky; top: 0; z-index: 1; padding-bottom: .6rem; box-shadow: 0 4px 12px #0001; }
#bar { display: flex; gap: .4rem; align-items: center; }
#slider { flex: 1; min-width: 6rem; accent-color: var(--mark); margin: 0 .3rem; }
button, input[type=number] { font: inherit; color: inherit; background: var(--key); border: 1px solid var(--line); border-radius: 6px; padding: .15rem .6rem; }
button:hover { border-color: var(--faint); } #at { width: 6.5rem; text-align: right; }
#told { display: flex; flex-wrap: wrap; gap: .1rem .6rem; align-items: baseline; margin-top: .5rem; min-height: 1.6em; }
#who { font-weight: 600; white-space: nowrap; } #command, #answer, #says, td, .mono { font-family: ui-monospace, "DejaVu Sans Mono", monospace; font-size: 13px; }
#command, #answer { font-weight: 600; } #says { margin: .1rem 0 0; min-height: 3.2em; } #says .sep { display: none; } #says .words { margin-right: .6rem; }
#says .change { display: inline-block; background: var(--key); border-radius: 4px; padding: 0 .4rem; margin: .1rem .3rem .1rem 0; }
svg { display: block; width: 100%; } svg text { fill: var(--ink); font: 12px ui-monospace, "DejaVu Sans Mono", monospace; }
#times, #whole { cursor: pointer; touch-action: none; } #times text, #whole text { font-size: 11.5px; pointer-events: none; } text.name { fill: var(--faint) !important; }
#both { display: grid; grid-template-columns: minmax(0, 1fr) 25rem; gap: .8rem; align-items: start; } @media (max-width: 62rem) { #both { grid-template-columns: minmax(0, 1fr); } }
table { border-collapse: collapse; width: 100%; } th, td { padding: .14rem 0; text-align: left; vertical-align: top; border-top: 1px solid var(--line); } tr:first-child > * { border-top: 0; }
th { font-weight: 400; color: var(--faint); white-space: nowrap; padding-right: .8rem; width: 7.6rem; font-size: 13px; } td { overflow-wrap: anywhere; white-space: pre-wrap; }
.mutator + .mutator { margin-top: .7rem; padding-top: .5rem; border-top: 3px double var(--line); } .mutator b { font-size: 13.5px; } .null { color: var(--faint); }
.box { fill: var(--card); } .edge { fill: none; stroke: var(--faint); } .free .edge { stroke-dasharray: 4 3; stroke: var(--line); } .free text { fill: var(--faint); }
.Black .top { fill: var(--black); } .Purple .top { fill: #7b3fa0; } .Gray .top { fill: #9aa1a9; } .White .top { fill: #ffffff; } .Orange .top { fill: #e69f00; } .Green .top { fill: #2e8b57; }
.Black .head, .Purple .head, .Green .head { fill: #fff; } .Gray .head, .White .head, .Orange .head { fill: #111; } .free .head { fill: var(--faint); } .bold { font-weight: 700 !important; }
.changed .edge { stroke: var(--mark); stroke-width: 3; } .port { fill: none; stroke: var(--line); } .flag { fill: var(--mark) !important; font-weight: 700 !important; }
.arrow { fill: none; stroke: var(--arrow); stroke-width: 1.5; marker-end: url(#tip); }
#legend { display: grid; grid-template-columns: repeat(auto-fit, minmax(24rem, 1fr)); gap: 0 2rem; } dl { display: grid; grid-template-columns: 7.4rem 1fr; gap: .2rem .8rem; margin: .5rem 0 0; align-content: start; } dt { font-weight: 600; display: flex; gap: .45rem; align-items: center; align-self: start; } dd { margin: 0; }
.swatch { width: .9rem; height: .9rem; border: 1px solid var(--faint); border-radius: 3px; flex: none; } kbd { background: var(--key); border: 1px solid var(--line); border-radius: 4px; padding: 0 .35rem; font: 12px ui-monospace, monospace; }
summary { cursor: pointer; } :focus-visible { outline: 2px solid var(--mark); outline-offset: 2px; }
</style>
</head>
<body>
<header><h1 id="name"></h1><p id="sizes"></p></header>
<main>
<section id="now" class="card" aria-label="the move">
<div id="bar">
<button id="first" title="Home">first</button><button id="back" title="left arrow">back</button>
<input id="slider" type="range" step="1" min="0" aria-label="move">
<button id="next" title="right arrow">next</button><button id="last" title="End">last</button>
<label>move <input id="at" type="number"></label>
</div>
<div id="told" aria-live="polite"><span id="who"></span><span id="command"></span><span id="answer"></span></div>
<p id="says" aria-live="polite"></p>
</section>
<section class="card"><h2>Timeline</h2><svg id="whole" role="img" aria-label="taken slots over all moves"></svg><svg id="times" role="img" aria-label="epochs, phases and taken slots over the moves"></svg></section>
<div id="both">
<section class="card"><h2>Heap</h2><svg id="boxes" role="img" aria-label="the heap"></svg><p id="more"></p></section>
<div><section class="card"><h2>Mutators</h2><div id="mutators"></div></section><section class="card"><h2>Collector</h2><table id="collector"></table></section></div>
</div>
<details class="card" open><summary>Legend and keys</summary><div id="legend">
<dl>
<dt><i class="swatch" style="background:var(--black)"></i>Black</dt><dd>in use or free; nothing suspects it</dd>
<dt><i class="swatch" style="background:#7b3fa0"></i>Purple</dt><dd>a candidate root in the root buffer (a possible root)</dd>
<dt><i class="swatch" style="background:#9aa1a9"></i>Gray</dt><dd>a trial marked it (MarkGray)</dd>
<dt><i class="swatch" style="background:#fff"></i>White</dt><dd>possibly garbage, by the scan (Scan)</dd>
<dt><i class="swatch" style="background:#e69f00"></i>Orange</dt><dd>a member of a set, which was collected (CollectWhite)</dd>
<dt><i class="swatch" style="background:#2e8b57"></i>Green</dt><dd>a leaf, which has no fields in use: counted, and never traced</dd>
<dt>count</dt><dd>the true count (RC): references that were counted, an epoch or two late</dd>
<dt>cyclic</dt><dd>the cyclic count (CRC): what trial deletion left of the count; of a set's member its references from outside</dd>
<dt>set</dt><dd>a candidate cycle in the cycle buffer; the Delta test asks whether it was touched, the Sigma test whether anything outside names it</dd>
<dt>thick edge</dt><dd>the move changed this slot; a dashed box is a free slot</dd>
</dl>
<dl>
<dt><i class="swatch" style="background:#56b4e9"></i>gather</dt><dd>mutators cross into the requested epoch and hand their logs over; then the batch is applied</dd>
<dt><i class="swatch" style="background:#0072b2"></i>release</dt><dd>fields of objects without a count are cleared, and what they named is counted down</dd>
<dt><i class="swatch" style="background:#d55e00"></i>free</dt><dd>a set that passed both tests is freed, a field at a time</dd>
<dt><i class="swatch" style="background:#f0e442"></i>trial</dt><dd>trial deletion: mark, scan and collect from the roots</dd>
<dt><i class="swatch" style="background:#cc79a7"></i>prepare</dt><dd>outside counts of the sets are made for the Sigma test (SigmaPreparation)</dd>
<dt><i class="swatch" style="background:#009e73"></i>sweep</dt><dd>slots of the free list become free</dd>
<dt><kbd>&larr;</kbd> <kbd>&rarr;</kbd></dt><dd>a move back or on, as <kbd>&darr;</kbd> and <kbd>&uarr;</kbd> do on the slider</dd>
<dt><kbd>p</kbd> <kbd>n</kbd></dt><dd>to the previous or next phase of the collector</dd>
<dt><kbd>Page&nbsp;&uarr;&darr;</kbd></dt><dd>a hundred moves; <kbd>Home</kbd> and <kbd>End</kbd>: the first and the last; the timeline can be clicked</dd>
</dl>
</div></details>
</main>
<script type="application/json" id="moves">
"##;

/// What stands after them.
pub const TAIL: &str = r##"</script>
<script>
"use strict";
const WINDOW = 2000, MOST_BOXES = 100;
const by = id => document.getElementById(id);
const lines = by("moves").textContent.trim().split("\n").map(line => JSON.parse(line));
const head = lines.shift();
const total = lines.length - 1;
const KEYFRAME = head.slots < 5000 ? 500 : 5000;
const make = (name, attributes, text) => {
  const node = document.createElementNS("http://www.w3.org/2000/svg", name);
  for (const key in attributes) node.setAttribute(key, attributes[key]);
  if (text !== undefined) node.textContent = text;
  return node;
};
const ref = slot => slot === null ? "null" : "#" + slot;

// A state is made from the one before it by the line of a move. Every so often one is kept.
function apply(state, line) {
  for (const slot of line.slots) state.slots[slot.slot] = slot;
  for (const mutator of line.mutators) state.mutators[mutator.mutator - 1] = mutator;
  if (line.lists) state.lists = line.lists;
  state.collector = line.collector;
  return state;
}
const copy = s => ({ slots: s.slots.slice(), mutators: s.mutators.slice(), lists: s.lists, collector: s.collector });
const keyframes = [], taken = [], epochs = [];
{
  const state = { slots: [], mutators: [], lists: null, collector: null };
  let count = 0;
  lines.forEach((line, at) => {
    for (const slot of line.slots) {
      const was = state.slots[slot.slot];
      count += (slot.label !== null) - (was !== undefined && was.label !== null);
    }
    apply(state, line);
    taken.push(count);
    epochs.push(state.mutators.map(mutator => mutator.left ? 0 : mutator.epoch));
    if (at % KEYFRAME === 0) keyframes.push(copy(state));
  });
}
let current = 0, shown = null;
function stateAt(at) {
  if (shown !== null && at === current + 1) return apply(shown, lines[at]);
  const frame = Math.floor(at / KEYFRAME), state = copy(keyframes[frame]);
  for (let i = frame * KEYFRAME + 1; i <= at; i++) apply(state, lines[i]);
  return state;
}
function go(to) {
  const at = Math.max(0, Math.min(total, to || 0));
  shown = stateAt(at);
  current = at;
  draw();
}
function draw() {
  const line = lines[current];
  by("slider").value = current;
  by("at").value = line.move;
  by("who").textContent = current === 0 ? "start" : line.mutator ? "mutator " + line.mutator : "collector";
  by("command").textContent = line.command || "";
  by("answer").textContent = line.answer ? "\u2192 " + line.answer : "";
  drawSentence(line.says);
  drawHeap(new Set(current === 0 ? [] : line.slots.map(slot => slot.slot)));
  drawMutators();
  drawCollector();
  drawTimes();
}
function drawSentence(text) {
  const into = by("says");
  into.replaceChildren();
  text.split("; ").forEach((part, i) => {
    const span = (kind, words) => Object.assign(document.createElement("span"), { className: kind, textContent: words });
    if (i > 0) into.append(span("sep", "; "));
    into.append(span(part.startsWith("#") ? "change" : "words", part));
  });
}

// Boxes stand in rows. Arrows run in the gutters between them: down from a field, along, and into a side of the target.
const BOX = { w: 172, h: 108, x: 58, y: 46 };
function visibleSlots(changed) {
  if (shown.slots.length <= MOST_BOXES) return shown.slots;
  const first = shown.slots.filter(slot => slot.label !== null).slice(0, MOST_BOXES), there = new Set(first);
  return first.concat(shown.slots.filter(slot => changed.has(slot.slot) && !there.has(slot)).slice(0, MOST_BOXES));
}
function drawHeap(changed) {
  const svg = by("boxes"), slots = visibleSlots(changed), place = new Map(), named = new Map();
  const across = Math.max(1, Math.min(slots.length, slots.length <= 16 ? 4 : 5)), down = Math.ceil(slots.length / across);
  const wide = across * (BOX.w + BOX.x) + BOX.x / 2, high = down * (BOX.h + BOX.y);
  svg.replaceChildren();
  svg.setAttribute("viewBox", `0 0 ${wide} ${high}`);
  svg.style.maxWidth = wide * 1.15 + "px";
  const tip = make("marker", { id: "tip", viewBox: "0 0 8 8", refX: 7, refY: 4, markerWidth: 7, markerHeight: 7, orient: "auto" }), defs = make("defs", {});
  tip.append(make("path", { d: "M0 .5 8 4 0 7.5z", style: "fill: var(--arrow)" }));
  defs.append(tip);
  svg.append(defs);
  slots.forEach((slot, i) => place.set(slot.slot, { x: BOX.x * .75 + (i % across) * (BOX.w + BOX.x), y: 4 + Math.floor(i / across) * (BOX.h + BOX.y) }));
  for (const mutator of shown.mutators) mutator.registers.forEach((to, r) => {
    if (to !== null) named.set(to, (named.get(to) || []).concat(head.mutators > 1 ? `${mutator.mutator}.r${r}` : "r" + r));
  });
  for (const slot of slots) if (slot.label !== null) slot.fields.forEach((to, field) => {
    if (to !== null && place.has(to)) svg.append(arrow(slot, place.get(slot.slot), place.get(to), field));
  });
  for (const slot of slots) svg.append(box(slot, place.get(slot.slot), changed.has(slot.slot), named.get(slot.slot) || []));
  const hidden = shown.slots.length - slots.length;
  by("more").textContent = hidden > 0 ? `${slots.length} boxes are drawn; ${hidden} more slots are not.` : "";
  by("more").hidden = hidden === 0;
}
const portOf = (at, field, fields) => at.x + BOX.w * (field + .5) / fields;
function box(slot, at, changed, registers) {
  const free = slot.label === null, kind = (free ? "free" : slot.colour) + (changed ? " changed" : "");
  const group = make("g", { class: kind, "data-slot": slot.slot, "data-label": free ? "free" : slot.label, "data-count": slot.count, "data-cyclic": slot.cyclic, "data-colour": slot.colour, "data-fields": slot.fields.map(ref).join(" ") });
  const text = (x, y, words, more) => group.append(make("text", { x: at.x + x, y: at.y + y, ...more }, words));
  group.append(make("rect", { x: at.x, y: at.y, width: BOX.w, height: BOX.h, rx: 7, class: "box" }));
  if (!free) group.append(make("path", { d: `M${at.x} ${at.y + 24}v-17a7 7 0 0 1 7-7h${BOX.w - 14}a7 7 0 0 1 7 7v17z`, class: "top" }));
  text(9, 16.5, "#" + slot.slot, { class: "head bold" });
  text(BOX.w - 9, 16.5, free ? "free" : slot.colour, { class: "head", "text-anchor": "end" });
  text(9, 41, free ? slot.colour : (slot.leaf ? "leaf " : "label ") + slot.label);
  text(BOX.w - 9, 41, slot.released ? "released" : slot.set !== null ? "set " + slot.set : slot.root ? "root" : "", { class: "flag", "text-anchor": "end" });
  text(9, 58, `count ${slot.count}`);
  text(BOX.w / 2 + 4, 58, `cyclic ${slot.cyclic}`);
  text(9, 75, (registers.length > 0 ? "in " : "") + registers.slice(0, 3).join(" ") + (registers.length > 3 ? " +" + (registers.length - 3) : ""), { class: "name" });
  if (!free) slot.fields.forEach((to, field) => {
    const wide = BOX.w / slot.fields.length, x = at.x + wide * field, few = slot.fields.length <= 8;
    if (field > 0) group.append(make("path", { d: `M${x} ${at.y + BOX.h - 20}v20`, class: "port" }));
    if (few) group.append(make("text", { x: x + wide / 2 - 5, y: at.y + BOX.h - 6, "text-anchor": "end", class: "name" }, field));
    group.append(make("circle", { cx: x + wide / 2 + (few ? 4 : 0), cy: at.y + BOX.h - 10, r: 3, style: to === null ? "fill: none; stroke: var(--faint)" : "fill: var(--arrow)" }));
  });
  if (!free) group.append(make("path", { d: `M${at.x} ${at.y + BOX.h - 20}h${BOX.w}`, class: "port" }));
  group.append(make("rect", { x: at.x, y: at.y, width: BOX.w, height: BOX.h, rx: 7, class: "edge" }));
  return group;
}
function arrow(slot, from, to, field) {
  const lane = (slot.slot * slot.fields.length + field) % 4, bottom = from.y + BOX.h, few = slot.fields.length <= 8;
  const x = portOf(from, field, slot.fields.length) + (few ? 4 : 0), y = bottom + 10 + lane * 6;
  const right = from.x > to.x || (from.x === to.x && from.y === to.y);
  const gutter = right ? to.x + BOX.w + 8 + lane * 5 : to.x - 8 - lane * 5, side = right ? to.x + BOX.w : to.x, into = to.y + 34 + lane * 12;
  const along = gutter > x ? 1 : -1, up = into < y ? -1 : 1, turn = right ? -1 : 1, r = Math.min(5, Math.abs(gutter - x) / 2);
  const d = `M${x} ${bottom - 10}V${y - r}Q${x} ${y} ${x + along * r} ${y}H${gutter - along * r}Q${gutter} ${y} ${gutter} ${y + up * r}V${into - up * 5}Q${gutter} ${into} ${gutter + turn * 5} ${into}H${side - turn}`;
  return make("path", { d, class: "arrow" });
}

function rowOf(name, text) {
  const row = document.createElement("tr"), first = document.createElement("th"), second = document.createElement("td");
  first.textContent = name;
  second.textContent = text;
  if (text === "none" || text === "-") second.className = "null";
  row.append(first, second);
  return row;
}
function drawMutators() {
  by("mutators").replaceChildren(...shown.mutators.map(mutator => {
    const into = document.createElement("div"), table = document.createElement("table");
    into.className = "mutator";
    into.dataset.mutator = mutator.mutator;
    into.append(Object.assign(document.createElement("b"), { textContent: `mutator ${mutator.mutator} in epoch ${mutator.epoch}` + (mutator.left ? ", has left" : "") }), table);
    table.append(rowOf("registers", mutator.registers.map((to, r) => `r${r}\u00a0${ref(to)}`).join("  ")));
    table.append(rowOf("log", mutator.logged === 0 ? "none" : (mutator.logged > mutator.log.length ? `${mutator.logged} entries, the last: ` : "") + mutator.log.map(entry => entry.replaceAll("->", "\u2192").replaceAll(" ", "\u00a0")).join("; ")));
    table.append(rowOf("mailbox", `${mutator.mailbox}, ${mutator.posted} entries`));
    table.append(rowOf("gathered", `${mutator.newer} newer and ${mutator.older} older entries`));
    return into;
  }));
}
function drawCollector() {
  const c = shown.collector, lists = shown.lists;
  const list = slots => slots.length === 0 ? "none" : slots.slice(0, 60).map(ref).join(" ") + (slots.length > 60 ? " \u2026 " + slots.length : "");
  by("collector").replaceChildren(
    rowOf("phase", c.phase + (c.settles ? ", the heap settles" : "")), rowOf("requested epoch", c.epoch), rowOf("collections", `${c.collections}, ${c.swept} slots swept`),
    rowOf("sets tested", `${c.sets_freed} freed, refused: ${c.sets_touched} by Delta, ${c.sets_held} by Sigma`),
    rowOf("roots", list(lists.roots)), rowOf("marked", list(lists.marked)), rowOf("work list", list(lists.work)), rowOf("zeros", list(lists.zeros)), rowOf("free list", list(lists.free)),
    rowOf("cycle buffer", lists.sets.map((set, i) => `set ${i}: ${list(set)}`).join("; ") || "none"));
}

const PHASES = { rest: "none", gather: "#56b4e9", release: "#0072b2", free: "#d55e00", trial: "#f0e442", prepare: "#cc79a7", sweep: "#009e73" };
const ROW = 22, LEFT = 84, WIDE = 1400, RIGHT = WIDE - 4;
let drawnFrom = -1, cursor = null;
const span = () => Math.min(total, WINDOW) + 1;
const across = at => LEFT + (at - drawnFrom) * (RIGHT - LEFT) / span();
function windowStart() {
  if (total <= WINDOW) return 0;
  if (drawnFrom >= 0 && current >= drawnFrom && current <= drawnFrom + WINDOW) return drawnFrom;
  return Math.max(0, Math.min(total - WINDOW, current - WINDOW / 2));
}
function drawTimes() {
  const start = windowStart();
  if (start !== drawnFrom) {
    drawnFrom = start;
    drawRows(by("times"));
    drawWhole(by("whole"));
  }
  cursor.setAttribute("transform", `translate(${(across(current) + across(current + 1)) / 2} 0)`);
}
function runs(svg, y, value, colour, text, ink) {
  const end = drawnFrom + span();
  for (let at = drawnFrom; at < end;) {
    const is = value(at);
    let to = at + 1;
    while (to < end && value(to) === is) to++;
    const x = across(at), width = across(to) - x;
    if (colour(is) !== "none") svg.append(make("rect", { x, y, width: Math.max(width - .5, .5), height: ROW - 4, style: "fill:" + colour(is) }));
    if (width > 8 + 7.2 * text(is).length) svg.append(make("text", { x: x + 4, y: y + 13, style: "fill:" + ink(is) }, text(is)));
    at = to;
  }
}
function stairs(from, to, x, y) {
  const step = Math.ceil((to - from) / 2500);
  let d = "";
  for (let at = from; at < to; at += step) if (at === from || taken[at] !== taken[at - step]) d += `${d ? "H" + x(at).toFixed(1) + "V" : "M" + x(at).toFixed(1) + " "}${y(taken[at]).toFixed(1)}`;
  return d + "H" + x(to).toFixed(1);
}
function curve(svg, from, to, x, top, high) {
  const up = n => top + high - high * n / head.slots, d = stairs(from, to, x, up);
  svg.append(make("path", { d: `M${LEFT} ${top}H${RIGHT}M${LEFT} ${top + high}H${RIGHT}`, style: "stroke:var(--line)" }));
  svg.append(make("path", { d: `${d}V${top + high}H${LEFT}z`, style: "fill:var(--area)" }), make("path", { d, style: "fill:none;stroke:var(--curve);stroke-width:1.6" }));
  svg.append(make("text", { x: 0, y: top + high / 2 + 4, class: "name" }, "taken"), make("text", { x: LEFT - 6, y: top + 9, class: "name", "text-anchor": "end" }, head.slots), make("text", { x: LEFT - 6, y: top + high, class: "name", "text-anchor": "end" }, 0));
}
function drawRows(svg) {
  const mutators = epochs[0].length, top = (mutators + 1) * ROW + 6, high = top + 64, end = drawnFrom + span();
  svg.replaceChildren();
  svg.setAttribute("viewBox", `0 0 ${WIDE} ${high}`);
  for (let t = 0; t < mutators; t++) {
    svg.append(make("text", { x: 0, y: t * ROW + 13, class: "name" }, "mutator " + (t + 1)));
    runs(svg, t * ROW, at => epochs[at][t], epoch => epoch === 0 ? "none" : epoch % 2 ? "var(--odd)" : "var(--even)", epoch => epoch === 0 ? "left" : "epoch " + epoch, () => "var(--ink)");
  }
  svg.append(make("text", { x: 0, y: mutators * ROW + 13, class: "name" }, "collector"));
  runs(svg, mutators * ROW, at => lines[at].collector.phase, phase => PHASES[phase], phase => phase === "rest" ? "" : phase, phase => phase === "release" ? "#fff" : "#111");
  curve(svg, drawnFrom, end, across, top, 56);
  cursor = make("g", {});
  cursor.append(make("path", { d: `M0 0V${high}`, style: "stroke:var(--mark);stroke-width:2" }), make("path", { d: "M-5 0H5L0 7z", style: "fill:var(--mark)" }));
  svg.append(cursor);
}
// All moves, where the timeline shows a window of them.
function drawWhole(svg) {
  svg.replaceChildren();
  svg.style.display = total <= WINDOW ? "none" : "block";
  if (total <= WINDOW) return;
  svg.setAttribute("viewBox", `0 0 ${WIDE} 44`);
  const x = at => LEFT + at * (RIGHT - LEFT) / (total + 1);
  curve(svg, 0, total + 1, x, 2, 34);
  svg.append(make("rect", { x: x(drawnFrom), y: 1, width: Math.max(4, x(drawnFrom + span()) - x(drawnFrom)), height: 36, style: "fill:none;stroke:var(--mark);stroke-width:2" }));
}
function clicks(svg, moveAt) {
  const to = event => {
    const frame = svg.getBoundingClientRect();
    go(Math.floor(moveAt((event.clientX - frame.left) * WIDE / frame.width)));
  };
  svg.addEventListener("pointerdown", event => { svg.setPointerCapture(event.pointerId); to(event); });
  svg.addEventListener("pointermove", event => { if (event.buttons & 1) to(event); });
}
clicks(by("times"), x => drawnFrom + (x - LEFT) * span() / (RIGHT - LEFT));
clicks(by("whole"), x => (x - LEFT) * (total + 1) / (RIGHT - LEFT));

// Where the collector's phase before or after this move is another.
function phaseFrom(step) {
  let at = current + step;
  while (at > 0 && at < total && lines[at].collector.phase === lines[at - 1].collector.phase) at += step;
  return at;
}
const STEPS = { ArrowLeft: () => current - 1, ArrowRight: () => current + 1, PageUp: () => current - 100, PageDown: () => current + 100, Home: () => 0, End: () => total, n: () => phaseFrom(1), p: () => phaseFrom(-1) };
document.addEventListener("keydown", event => {
  if (event.target === by("at") || event.ctrlKey || event.altKey || event.metaKey || !Object.hasOwn(STEPS, event.key)) return;
  event.preventDefault();
  go(STEPS[event.key]());
});
by("slider").addEventListener("input", event => go(Number(event.target.value)));
by("at").addEventListener("change", event => go(Number(event.target.value) - lines[0].move));
for (const [id, key] of [["first", "Home"], ["back", "ArrowLeft"], ["next", "ArrowRight"], ["last", "End"]]) by(id).addEventListener("click", () => go(STEPS[key]()));

by("name").textContent = head.script;
document.title = head.script + " - recycler_watch";
const several = (n, word) => `${n} ${word}${n === 1 ? "" : "s"}`;
by("sizes").textContent = `${several(head.slots, "slot")}, ${several(head.fields, "field")}, ${several(head.registers, "register")}, ${several(head.mutators, "mutator")}; seed ${head.seed}; moves ${lines[0].move} to ${lines[total].move}` + (total === 100000 ? ", as many as a page has: write one with --from for later moves" : "");
by("slider").max = total;
go(0);
</script>
</body>
</html>
"##;
