//! Its style sheet. `tools/embed-page` writes this file from view/style.css.

/// Its style sheet.
pub fn style() -> &'static str {
    r#"/* zxtt-view: how the page looks. Colours are named once for light and once for dark; sizes are few. */

:root {
  --ground: #eef0f3;
  --panel: #ffffff;
  --raised: #f6f7f9;
  --line: #dde1e7;
  --text: #1b2330;
  --dim: #5b6776;
  --accent: #1c5fc4;
  --chosen: #dce9fc;
  --hover: #f0f4fa;
  --failed: #b3261e;
  --failed-ground: #fdeceb;
  --leaked: #8f5200;
  --leaked-ground: #fff1d3;
  --before: #fbe3e1;
  --after: #ddf3e1;
  --way: #1c5fc4;
  --job: #7a4cc2;
  --process: #1c5fc4;
  --channel: #0b7a75;
  --event: #b85c00;
  --eventpair: #b0307f;
  --port: #3b7a1e;
  --sans: system-ui, -apple-system, "Segoe UI", Roboto, "Noto Sans", "DejaVu Sans", sans-serif;
  --data: 12px;
  --small: 11px;
  --names: 10px;
  --mono: ui-monospace, SFMono-Regular, Menlo, Consolas, "Noto Sans Mono", "DejaVu Sans Mono", monospace;
  color-scheme: light dark;
}

@media (prefers-color-scheme: dark) {
  :root {
    --ground: #0e1116;
    --panel: #161a21;
    --raised: #1c212a;
    --line: #2a313c;
    --text: #dde4ed;
    --dim: #93a0b1;
    --accent: #79b0ff;
    --chosen: #1f3557;
    --hover: #1d242f;
    --failed: #ff8f86;
    --failed-ground: #3a1d1d;
    --leaked: #ffc266;
    --leaked-ground: #3a2c12;
    --before: #44211f;
    --after: #183a24;
    --way: #79b0ff;
    --job: #b799f2;
    --process: #79b0ff;
    --channel: #55c7bf;
    --event: #f2a55a;
    --eventpair: #f08cc6;
    --port: #8ccf6b;
  }
}

* { box-sizing: border-box; }

html, body { height: 100%; margin: 0; }

body {
  display: flex;
  flex-direction: column;
  background: var(--ground);
  color: var(--text);
  font: 13px/1.4 var(--sans);
}

h1, h2, h3, p, dl, dd { margin: 0; }
[hidden] { display: none !important; }
.space { flex: 1; }
.mono, code, kbd { font-family: var(--mono); font-size: var(--data); }
.dim, .note { color: var(--dim); }
.note { font-size: var(--data); min-width: 0; overflow: hidden; text-overflow: ellipsis; white-space: nowrap; }

/* What can be pressed and typed into. */

button, .button, input, select {
  font: inherit;
  font-size: 12px;
  color: inherit;
  background: var(--panel);
  border: 1px solid var(--line);
  border-radius: 5px;
  height: 26px;
  padding: 0 9px;
}
button, .button { cursor: pointer; background: var(--raised); white-space: nowrap; }
.button { display: inline-flex; align-items: center; text-decoration: none; }
button:hover:enabled, .button:hover { border-color: var(--accent); }
button:disabled { color: var(--dim); cursor: default; opacity: 0.6; }
input, select { min-width: 0; }
input::placeholder { color: var(--dim); opacity: 0.8; }
input[type="checkbox"] { height: auto; margin: 0; accent-color: var(--accent); }
select { padding: 0 4px; }
.danger { background: var(--failed); border-color: var(--failed); color: var(--panel); }
:focus-visible { outline: 2px solid var(--accent); outline-offset: 1px; }
#timeline:focus-visible, #state:focus-visible, #change:focus-visible, #graph:focus-visible, #handle:focus-visible, #object:focus-visible {
  outline-width: 1px;
  outline-offset: -1px;
}

a { color: var(--accent); text-decoration: none; }
a:hover { text-decoration: underline; }

/* The bar at the top, and the message below it. */

header {
  display: flex;
  align-items: center;
  gap: 10px;
  padding: 7px 10px;
  background: var(--panel);
  border-bottom: 1px solid var(--line);
}
h1 { font: 600 15px/1 var(--mono); letter-spacing: -0.3px; }
h1 span { color: var(--accent); }
h1 span::before { content: "-"; color: var(--dim); }
.steps { display: flex; margin-left: 6px; }
.steps button { width: 32px; padding: 0; border-radius: 0; margin-left: -1px; }
.steps button:first-child { border-radius: 5px 0 0 5px; }
.steps button:last-child { border-radius: 0 5px 5px 0; }
.steps svg { width: 14px; height: 14px; fill: currentColor; vertical-align: -2px; }
#trace { max-width: 260px; overflow: hidden; text-overflow: ellipsis; white-space: nowrap; font: 12px/1 var(--mono); color: var(--dim); }
#trace:empty { display: none; }
#position { display: flex; align-items: baseline; gap: 6px; white-space: nowrap; min-width: 190px; }
#position b { font: 600 16px/1 var(--mono); }
#jump-form { display: flex; align-items: center; gap: 6px; color: var(--dim); }
#jump { width: 82px; font-family: var(--mono); color: var(--text); }

#trouble {
  display: flex;
  align-items: center;
  gap: 8px;
  padding: 6px 12px;
  background: var(--failed-ground);
  color: var(--failed);
  border-bottom: 1px solid var(--failed);
}
#trouble span { flex: 1; }

/* Three columns of panels. */

main {
  flex: 1;
  min-height: 0;
  display: grid;
  grid-template-columns: minmax(0, 1.06fr) minmax(0, 1.18fr) minmax(0, 1fr);
  gap: 8px;
  padding: 8px;
}
.column { display: flex; flex-direction: column; gap: 8px; min-width: 0; min-height: 0; }
.panel {
  display: flex;
  flex-direction: column;
  min-height: 0;
  background: var(--panel);
  border: 1px solid var(--line);
  border-radius: 7px;
  overflow: hidden;
  contain: layout paint;
  font-size: var(--data);
}
.grow { flex: 1 1 0; }
.head {
  display: flex;
  align-items: center;
  gap: 8px;
  min-height: 33px;
  padding: 3px 10px;
  border-bottom: 1px solid var(--line);
}
h2 { font-size: var(--data); font-weight: 600; white-space: nowrap; }
.head .note { flex: 1; text-align: right; }
#change, #state, #graph, #handle, #object, #tree { overflow: auto; min-height: 0; }

/* Links to objects, handles and moments; rights, signals and bytes. */

.koid { font-family: var(--mono); font-size: var(--data); color: inherit; cursor: pointer; white-space: nowrap; }
.koid .kind { color: var(--dim); font-size: var(--small); }
.koid::before {
  content: "";
  display: inline-block;
  width: 7px;
  height: 7px;
  margin-right: 4px;
  border-radius: 2px;
  background: var(--dim);
}
.koid.job::before { background: var(--job); }
.koid.process::before { background: var(--process); border-radius: 50%; }
.koid.channel::before { background: var(--channel); }
.koid.event::before { background: var(--event); border-radius: 50%; }
.koid.eventpair::before { background: var(--eventpair); }
.koid.port::before { background: var(--port); }
.koid.leaked { background: var(--leaked-ground); border-radius: 3px; }
.koid.picked { background: var(--chosen); border-radius: 3px; }
.handle { font-family: var(--mono); font-size: var(--data); color: inherit; cursor: pointer; border-bottom: 1px dotted var(--dim); }
.handle.picked { background: var(--chosen); border-radius: 3px; }
.handle:hover, .koid:hover { color: var(--accent); text-decoration: none; }
.go { font-family: var(--mono); font-size: var(--data); cursor: pointer; }
.names { font-size: var(--names); color: var(--dim); cursor: help; }
.names.on { color: var(--text); }
.said .names { font-size: var(--small); }
.bytes { font-family: var(--mono); font-size: var(--data); overflow-wrap: anywhere; }
.tag {
  display: inline-block;
  padding: 0 5px;
  border: 1px solid currentColor;
  border-radius: 8px;
  font-size: 11px;
  line-height: 15px;
  color: var(--dim);
  white-space: nowrap;
}
.tag.leaked { color: var(--leaked); background: var(--leaked-ground); }
.tag.failed { color: var(--failed); }
.tag.held { color: var(--accent); }

/* Names beside koids and handles, and notes; both are texts of the trace, whose direction stays with them. */

.called {
  display: inline-block;
  max-width: 24ch;
  overflow: clip;
  text-overflow: ellipsis;
  white-space: pre;
  font-weight: 400;
  color: var(--dim);
  unicode-bidi: isolate;
}
.remark { color: var(--dim); unicode-bidi: plaintext; }
#change .remark {
  max-height: 104px;
  padding: 5px 10px;
  overflow-y: auto;
  border-bottom: 1px solid var(--line);
  font: var(--small)/1.45 var(--mono);
  white-space: pre-wrap;
  overflow-wrap: anywhere;
}
.remark .more { display: block; margin: 4px 0 0; }
.naming { flex: 0 1 24ch; min-width: 0; }
.naming input { width: 100%; height: 22px; padding: 0 6px; font: var(--small)/1 var(--mono); }
#handle-note { flex: 1 0 auto; }

/* The timeline. */

#search-form { display: flex; gap: 6px; align-items: center; padding: 6px 8px; border-bottom: 1px solid var(--line); }
#search { flex: 1; }
.check { display: flex; gap: 4px; align-items: center; white-space: nowrap; font-size: 12px; color: var(--dim); }
#timeline { flex: 1; overflow-y: auto; overflow-x: hidden; position: relative; contain: strict; container: timeline / inline-size; }
#timeline-none { margin: 0; padding: 8px 10px; }
#timeline-rows { position: relative; width: 100%; }
.row {
  position: absolute;
  left: 0;
  right: 0;
  height: 22px;
  display: flex;
  gap: 7px;
  padding: 0 9px 0 6px;
  font: var(--data)/22px var(--mono);
  white-space: nowrap;
  cursor: pointer;
}
.row > * { overflow: hidden; text-overflow: ellipsis; }
.row .number { flex: none; min-width: calc(max(4, var(--digits, 3)) * 1ch); text-align: right; color: var(--dim); }
.row > .koid { flex: none; min-width: 4ch; color: var(--dim); }
.row .mark { flex: none; min-width: 14px; margin-left: auto; }
.row .koid::before { display: none; }
.row > .koid { display: flex; flex: 0 100 auto; }
.row .called { max-width: 11ch; }
.row > .koid .called { flex: 0 1 auto; min-width: 0; }
.row .handle .called { display: none; }
@container timeline (min-width: 560px) { .row .handle .called { display: inline-block; } }
.row .remark { flex: 1 1 0; min-width: 0; font-size: var(--small); white-space: pre; }
.row .word { font-weight: 600; }
.row .call { flex: 0 1 auto; min-width: 11ch; color: var(--text); }
.row .answer { flex: 0 1 auto; min-width: 2ch; color: var(--dim); text-align: right; }
.row .answer.failed { flex-shrink: 0; }
.row:hover { background: var(--hover); }
.row.failed { box-shadow: inset 3px 0 var(--failed); }
.row.failed .status { color: var(--failed); font-weight: 600; }
.row.leaks { box-shadow: inset 3px 0 var(--leaked); }
.row.here { background: var(--chosen); box-shadow: inset 3px 0 var(--accent); }
.row.here .number { color: var(--text); font-weight: 700; }
.row.waiting .call { color: var(--dim); }
.row .mark { font-size: 13px; font-weight: 700; text-align: center; color: var(--dim); overflow: visible; }
.row .mark.peer_closed { color: var(--accent); }
.row .mark.leaked { color: var(--leaked); }
.row .mark.task { height: 18px; margin-top: 2px; padding: 0 4px; line-height: 18px; border-radius: 4px; color: var(--failed); background: var(--failed-ground); }

/* The tree of branches, and the call at a head. */

#tree { position: relative; max-height: 168px; min-height: 60px; padding: 4px 0; }
#tree svg { position: absolute; top: 4px; left: 10px; pointer-events: none; }
#tree svg path { fill: none; stroke-width: 2; }
#tree svg circle { stroke-width: 2; fill: var(--panel); }
#tree svg circle.here { fill: var(--text); stroke: var(--text); }
.lane-0 { stroke: var(--process); } .lane-1 { stroke: var(--event); } .lane-2 { stroke: var(--port); }
.lane-3 { stroke: var(--eventpair); } .lane-4 { stroke: var(--job); } .lane-5 { stroke: var(--channel); }
.knot { cursor: pointer; display: flex; align-items: center; gap: 6px; height: 22px; padding-right: 8px; white-space: nowrap; }
.knot:hover { background: var(--hover); }
.knot.here { background: var(--chosen); }
.knot .go { min-width: 52px; text-align: left; }
.branch { height: 18px; padding: 0 6px; font: 11px/16px var(--mono); border-radius: 9px; }
.branch.on { background: var(--accent); border-color: var(--accent); color: var(--panel); }
#branch-form { display: flex; gap: 6px; margin-left: auto; min-width: 0; }
#branch-name { width: 110px; flex: 0 1 110px; font-family: var(--mono); }
#call-form { border-top: 1px solid var(--line); padding: 8px; display: grid; grid-template-columns: minmax(0, 1fr); gap: 6px; }
#call-form .line { display: flex; gap: 6px; }
#call-form select { font-family: var(--mono); }
#call-process { flex: 0 1 auto; max-width: 45%; }
#call-name { flex: 1; }
#call-run { flex: none; }
#call-arguments { font-family: var(--mono); }
#call-answer:empty { display: none; }
#call-answer { min-height: 17px; font: var(--data)/17px var(--mono); color: var(--dim); overflow-wrap: anywhere; }
#call-answer.failed { color: var(--failed); }
#call-answer.ok { color: var(--port); }

/* What a call changed: before and after, side by side. */

#change-panel { flex: 0 0 39%; }
.said { padding: 6px 10px; border-bottom: 1px solid var(--line); font: var(--data)/1.5 var(--mono); overflow-wrap: anywhere; }
.said .word { font-weight: 600; }
.said .answer.failed { color: var(--failed); font-weight: 600; }
.sides { width: 100%; border-collapse: collapse; table-layout: fixed; }
.sides th { position: sticky; top: 0; z-index: 1; background: var(--raised); }
.sides th, .sides td { padding: 3px 8px; text-align: left; vertical-align: top; border-bottom: 1px solid var(--line); }
.sides th { font-size: 11px; font-weight: 500; color: var(--dim); }
.sides .what { width: 31%; }
.sides .called, .sides .called + .kind { display: inline; white-space: pre-wrap; overflow-wrap: anywhere; }
.sides .called + .kind::before { content: "\200b"; }
.fields { display: flex; flex-wrap: wrap; gap: 1px 9px; align-items: baseline; }
.field .label { color: var(--dim); font-size: var(--small); }
.field .label::after { content: " "; }
.field.other { border-radius: 3px; padding: 0 3px; margin: 0 -3px; }
.from .field.other, .from.gone { background: var(--before); }
.to .field.other, .to.came { background: var(--after); }
.empty { padding: 8px 10px; color: var(--dim); }

/* The state. */

#state { padding: 2px 0 8px; }
details > summary { cursor: pointer; list-style: none; display: flex; gap: 6px; align-items: baseline; padding: 2px 10px; }
details > summary::-webkit-details-marker { display: none; }
details > summary::before {
  content: "";
  flex: none;
  width: 0;
  height: 0;
  border: 4px solid transparent;
  border-left-color: var(--dim);
  border-right: 0;
  transition: transform 80ms;
}
details[open] > summary::before { transform: rotate(90deg); }
details.group > summary { padding-top: 5px; font-size: 11px; font-weight: 600; color: var(--dim); }
details.group > summary .count { font-weight: 400; }
.nest { margin-left: 14px; }
.task > summary { flex-wrap: wrap; row-gap: 0; }
.changed { background: linear-gradient(90deg, var(--after), transparent 70%); }
.table { border-collapse: collapse; margin: 0 8px 3px 10px; width: calc(100% - 18px); }
.table td { padding: 1px 6px 1px 0; vertical-align: baseline; border-bottom: 1px solid var(--line); }
.table tr:last-child td { border-bottom: 0; }
.table .value { width: 34px; text-align: right; padding-right: 10px; white-space: nowrap; }
.table .what { width: 112px; white-space: nowrap; }
.table .called { max-width: 16ch; }
.pair { display: grid; grid-template-columns: 1fr 1fr; gap: 8px; margin: 3px 10px 5px 20px; align-items: start; }
.pair.alone { grid-template-columns: 1fr auto; }
.side { border: 1px solid var(--line); border-radius: 5px; padding: 3px 7px 4px; min-width: 0; background: var(--raised); }
.side.gone { border-style: dashed; background: none; color: var(--dim); }
.side.leaked { border-color: var(--leaked); }
.side .top { display: flex; flex-wrap: wrap; gap: 0 8px; align-items: baseline; }
.one { margin: 2px 10px 4px 20px; }
.things { margin: 2px 0 0; padding: 0; list-style: none; }
.things li { display: flex; flex-wrap: wrap; gap: 0 7px; align-items: baseline; padding: 1px 0; border-top: 1px solid var(--line); }
.things .index { font: 11px/1.4 var(--mono); color: var(--dim); }
.more { margin: 2px 10px 4px 26px; height: 22px; }

/* The graph. */

#graph { flex: 1; display: flex; flex-direction: column; }
#graph > svg { flex: none; margin: auto; }
.node rect { fill: var(--raised); stroke: var(--dim); stroke-width: 1.2; }
.node text { fill: var(--text); font: 600 12px var(--mono); text-anchor: middle; pointer-events: none; }
.node text.sort { fill: var(--dim); font: 10px var(--sans); }
.node text.called { fill: var(--dim); font: 9px var(--mono); white-space: pre; unicode-bidi: isolate; }
.node.job rect { stroke: var(--job); } .node.process rect { stroke: var(--process); }
.node.channel rect { stroke: var(--channel); } .node.event rect { stroke: var(--event); }
.node.eventpair rect { stroke: var(--eventpair); } .node.port rect { stroke: var(--port); }
.node.leaked rect { fill: var(--leaked-ground); stroke: var(--leaked); stroke-width: 2; stroke-dasharray: 4 2; }
.node rect.fate { fill: var(--panel); stroke-width: 1; }
.node text.fate { fill: var(--dim); font: 600 8px var(--sans); }
.node.leaked rect.fate { stroke-dasharray: none; stroke-width: 1; }
.node.leaked text.fate { fill: var(--leaked); }
.node.picked rect { stroke-width: 3; fill: var(--chosen); }
.node.ended rect { stroke-dasharray: 2 2; }
.node.ended rect.fate { stroke-dasharray: none; }
.node.koid::before { display: none; }
.node.way rect { stroke-width: 3; }
.node rect.turn { fill: var(--way); stroke: var(--panel); stroke-width: 1; stroke-dasharray: none; }
.node text.turn { fill: var(--panel); font: 700 9px var(--mono); }
.node:hover rect { filter: brightness(0.96); }
.edge { fill: none; stroke: var(--dim); stroke-width: 1.2; opacity: 0.75; }
.edge.message { stroke: var(--leaked); stroke-dasharray: 5 3; opacity: 1; }
.edge.peer { stroke: var(--channel); stroke-width: 3; opacity: 0.55; }
.edge.child { stroke-dasharray: 1 3; }
.edge.lit { stroke: var(--accent); opacity: 1; stroke-width: 1.8; }
.edge.message.lit { stroke: var(--leaked); }
.edge.way { stroke: var(--way); opacity: 1; stroke-width: 2.6; }
.edge-label { pointer-events: none; font: 10px var(--mono); fill: var(--dim); text-anchor: middle; paint-order: stroke; stroke: var(--panel); stroke-width: 3px; }
#arrow path { fill: var(--dim); }
.key { display: flex; flex-wrap: wrap; gap: 2px 12px; padding: 4px 10px; font-size: 11px; color: var(--dim); }
.key svg { display: inline; margin: 0 4px 0 0; vertical-align: 2px; }
#leaks { display: flex; flex-wrap: wrap; gap: 0 9px; flex: none; padding: 5px 10px; border-bottom: 1px solid var(--line); color: var(--dim); max-height: 71px; overflow: auto; }
#leaks.some { background: var(--leaked-ground); color: var(--leaked); }
#leaks .koid { color: var(--text); }

/* The life of the handle that is picked, and the handles of its object. */

#handle-panel { flex: none; min-height: 22%; max-height: 42%; }
#handle-panel:not([hidden]) + #object-panel { flex-basis: 20%; }
#handle-panel .head button { height: 22px; }
#handle { padding: 4px 10px 8px; }
#handle h3 { margin: 7px 0 1px; font-size: 11px; font-weight: 600; color: var(--dim); }
#handle ul, .life { margin: 0; padding: 0; list-style: none; }
#handle .fields { gap: 1px 7px; }
.life { counter-reset: step; margin: 3px 0; }
.life li { position: relative; padding: 1px 4px 2px 22px; border-radius: 3px; cursor: pointer; }
.life li:hover { background: var(--hover); }
.life li::before {
  counter-increment: step;
  content: counter(step);
  position: absolute;
  left: 2px;
  top: 2px;
  min-width: 14px;
  border-radius: 7px;
  background: var(--way);
  color: var(--panel);
  font: 700 9px/14px var(--mono);
  text-align: center;
}
.life li.end::before { content: "\00d7"; background: var(--failed); }
.life li.later { opacity: 0.6; }
.life li.here { background: var(--chosen); }
.life .by { font: var(--small)/1.4 var(--mono); color: var(--dim); overflow-wrap: anywhere; }
.kin li { padding: 1px 0; color: var(--dim); }
.kin li.held { color: var(--text); font-weight: 600; }
.kin li.own { background: var(--raised); }
.kin .left { white-space: nowrap; }

/* The object that is picked. */

#object-panel { flex: 0 0 36%; }
#object { padding: 4px 10px 8px; }
#object h3 { margin: 7px 0 1px; font-size: 11px; font-weight: 600; color: var(--dim); }
#object ul { margin: 0; padding: 0; list-style: none; }
#object li { padding: 1px 0; }
#object .more { margin: 8px 0 0; }
.when { display: grid; grid-template-columns: 80px 1fr; gap: 1px 8px; }
.when dt { color: var(--dim); }
.when dd { font-family: var(--mono); overflow-wrap: anywhere; }
.when .leaked { color: var(--leaked); }

/* Questions and help. */

dialog {
  width: min(520px, 92vw);
  border: 1px solid var(--line);
  border-radius: 9px;
  padding: 16px 18px;
  background: var(--panel);
  color: var(--text);
}
dialog::backdrop { background: rgba(10, 14, 20, 0.45); }
dialog h2 { font-size: 15px; margin-bottom: 8px; }
dialog p { margin-bottom: 10px; }
dialog form { display: flex; gap: 8px; }
dialog dl { display: grid; grid-template-columns: max-content 1fr; gap: 5px 14px; margin-bottom: 10px; }
kbd { border: 1px solid var(--line); border-radius: 4px; padding: 0 4px; background: var(--raised); }

@media (min-width: 1700px) {
  :root { --data: 13px; --small: 12px; --names: 11px; }
  body { font-size: 14px; }
  main { grid-template-columns: minmax(0, 1fr) minmax(0, 1.1fr) minmax(0, 1.15fr); }
  #tree { max-height: 240px; }
}

@media (max-width: 1000px) {
  body { height: auto; }
  header { flex-wrap: wrap; }
  main { grid-template-columns: minmax(0, 1fr); }
  .panel.grow { min-height: 420px; }
  #change-panel, #handle-panel, #object-panel { flex: none; min-height: 120px; }
}

@media (prefers-reduced-motion: reduce) {
  * { transition: none !important; }
}
"#
}
