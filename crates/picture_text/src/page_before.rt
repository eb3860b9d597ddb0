// What stands in the page before the script of the data. Made by scripts/picture_page of page/page.html, which is edited in place of this file.

/// What stands in the page before the script of the data.
pub(crate) const BEFORE: &str = r#"<!doctype html>
<html lang="en"><head><meta charset="utf-8"><meta name="viewport" content="width=device-width">
<title>balsadbg: picture of a run</title>
<style>
:root {
  --bg: #fcfcfa;
  --panel: #f3f4f1;
  --ink: #1b2228;
  --soft: #5d6872;
  --faint: #c4cad0;
  --hair: #e1e4e6;
  --bar: #bfe5d8;
  --barline: #2d9a7c;
  --past: #0067b1;
  --pastbg: #dcecf8;
  --next: #c24a00;
  --nextbg: #fbe6d6;
  --race: #9b3d91;
  --ring: #8a1c4d;
  --ringbg: #f8e3ec;
  --ready: #007a58;
  --readybg: #dcf2ea;
  --self: #ffe97a;
  --hit: #fff6c9
}
@media screen {
  :root[data-theme=dark] {
    --bg: #14181c;
    --panel: #1b2126;
    --ink: #e8ecef;
    --soft: #9aa6b0;
    --faint: #47515a;
    --hair: #2b333a;
    --bar: #1e4f43;
    --barline: #46b795;
    --past: #5bb7f5;
    --pastbg: #16344a;
    --next: #ff9a4d;
    --nextbg: #4a2a12;
    --race: #e08fd6;
    --ring: #ff8fb8;
    --ringbg: #4a1d31;
    --ready: #42c79d;
    --readybg: #163d31;
    --self: #6b5d10;
    --hit: #3d3714
  }
}
* {
  box-sizing: border-box
}
html,
body {
  height: 100%;
  margin: 0
}
body {
  display: flex;
  flex-direction: column;
  background: var(--bg);
  color: var(--ink);
  font: 13px/1.45 system-ui, "Segoe UI", "DejaVu Sans", sans-serif
}
code,
pre,
.m,
svg text {
  font-family: "DejaVu Sans Mono", ui-monospace, Menlo, Consolas, monospace
}
header,
footer {
  display: flex;
  align-items: center;
  gap: 10px;
  padding: 6px 12px;
  background: var(--panel);
  border-bottom: 1px solid var(--hair);
  white-space: nowrap
}
footer {
  border: 0;
  border-top: 1px solid var(--hair);
  font-size: 12px;
  color: var(--soft);
  gap: 14px;
  overflow: hidden;
  min-height: 30px;
  padding: 4px 12px
}
h1 {
  font-size: 15px;
  margin: 0;
  font-weight: 650
}
.sub {
  color: var(--soft);
  overflow: hidden;
  text-overflow: ellipsis;
  flex: 1 1 auto;
  min-width: 0
}
.chip,
button.chip {
  border: 0;
  padding: 1px 9px;
  border-radius: 10px;
  font-weight: 600;
  background: var(--hair)
}
.chip.ring {
  background: var(--ringbg);
  color: var(--ring)
}
.chip.go {
  background: var(--readybg);
  color: var(--ready)
}
button,
input {
  font: inherit;
  color: inherit;
  background: var(--bg);
  border: 1px solid var(--faint);
  border-radius: 5px;
  padding: 2px 8px
}
button {
  cursor: pointer
}
button[aria-pressed=true] {
  background: var(--hair);
  font-weight: 600
}
button:focus-visible,
input:focus-visible,
a:focus-visible,
svg [tabindex]:focus-visible,
#view:focus-visible {
  outline: 2px solid var(--past);
  outline-offset: -2px
}
input {
  width: 120px
}
main {
  flex: 1;
  display: flex;
  min-height: 0
}
#view {
  flex: 1;
  overflow: auto;
  position: relative;
  min-width: 0
}
#pad {
  position: relative
}
#pic {
  position: sticky;
  top: 0;
  left: 0;
  display: block
}
#map {
  width: 58px;
  border-left: 1px solid var(--hair);
  cursor: pointer
}
aside {
  width: 404px;
  flex: none;
  border-left: 1px solid var(--hair);
  background: var(--panel);
  display: flex;
  flex-direction: column;
  min-height: 0
}
#card {
  padding: 10px 12px;
  overflow: auto;
  flex: 0 1 auto;
  max-height: 54%;
  border-bottom: 1px solid var(--hair)
}
#src {
  flex: 1 1 200px;
  overflow: auto;
  margin: 0;
  padding: 4px 0;
  background: var(--bg);
  font-size: 11.5px;
  line-height: 16px;
  tab-size: 4;
  min-height: 120px
}
#vals {
  flex: 0 1 auto;
  max-height: 27%;
  min-height: 60px;
  overflow: auto;
  padding: 6px 12px;
  border-top: 1px solid var(--hair)
}
#src div {
  white-space: pre;
  padding-right: 8px;
  min-width: max-content
}
#src i {
  display: inline-block;
  width: 30px;
  text-align: right;
  color: var(--soft);
  font-style: normal;
  user-select: none;
  cursor: pointer
}
#src u {
  display: inline-block;
  width: 16px;
  text-decoration: none;
  text-align: center;
  font-size: 9px;
  letter-spacing: -1px
}
#src .at {
  background: var(--self)
}
#src .by {
  background: var(--hit)
}
#src b {
  font-weight: 600
}
#src em {
  color: var(--soft)
}
h2 {
  font-size: 11px;
  letter-spacing: .06em;
  text-transform: uppercase;
  color: var(--soft);
  margin: 8px 0 3px;
  font-weight: 650
}
h2:first-child {
  margin-top: 0
}
.ev0 {
  font-size: 12px;
  background: var(--bg);
  border: 1px solid var(--hair);
  border-radius: 5px;
  padding: 4px 7px;
  display: block;
  overflow-wrap: anywhere
}
table {
  border-collapse: collapse;
  font-size: 12px
}
td,
th {
  padding: 1px 12px 1px 0;
  text-align: left;
  vertical-align: top;
  font-weight: 400
}
#card > div,
td.name {
  overflow-wrap: anywhere
}
td.who {
  min-width: 96px
}
table.tall tr {
  display: flex;
  flex-wrap: wrap
}
table.tall .name {
  flex: 1 0 100%;
  padding-right: 0
}
table.tall td + td {
  padding-left: 14px
}
a {
  color: inherit;
  cursor: pointer;
  text-decoration: underline;
  text-decoration-color: var(--faint);
  text-underline-offset: 2px
}
a.line {
  white-space: nowrap
}
.cp a,
a.cp {
  color: var(--past)
}
.cf a,
a.cf {
  color: var(--next)
}
.rg {
  color: var(--ring)
}
.rd {
  color: var(--ready)
}
.cmd {
  display: flex;
  gap: 8px;
  align-items: center;
  margin: 3px 0
}
.cmd code,
.cmd .m {
  overflow-wrap: anywhere;
  min-width: 0
}
.cmd code,
.cmd button {
  flex: none;
  max-width: 62%
}
.cmd code {
  background: var(--bg);
  border: 1px solid var(--hair);
  border-radius: 4px;
  padding: 1px 7px
}
.ring div {
  padding-left: 14px;
  text-indent: -14px
}
.soft {
  color: var(--soft)
}
.sw {
  display: inline-block;
  width: 10px;
  height: 10px;
  border-radius: 2px;
  margin-right: 5px;
  vertical-align: -1px
}
.sw.next {
  background: var(--next)
}
.dashes {
  display: inline-block;
  width: 25px;
  border-top: 2px dashed var(--next);
  margin-right: 5px;
  vertical-align: 3px
}
#help {
  position: fixed;
  inset: 60px auto auto 50%;
  transform: translateX(-50%);
  background: var(--bg);
  border: 1px solid var(--faint);
  border-radius: 8px;
  box-shadow: 0 8px 40px #0005;
  padding: 14px 20px;
  z-index: 5;
  max-width: 640px
}
#help[hidden] {
  display: none
}
#help table td:first-child {
  font-family: monospace;
  white-space: nowrap
}
svg text {
  font-size: 11px;
  fill: currentColor
}
svg {
  color: var(--ink)
}
svg .s9 {
  font-size: 9px
}
svg .lab,
svg .s9 {
  paint-order: stroke;
  stroke: var(--bg);
  stroke-width: 3px;
  stroke-linejoin: round
}
.ev {
  cursor: pointer
}
.ev .v {
  font-weight: 700
}
.ev line,
.ev path,
.ev rect,
.ev circle,
.ev polygon {
  vector-effect: non-scaling-stroke
}
.ev:hover .box {
  fill: var(--hit)
}
svg .on {
  font-weight: 600;
  paint-order: stroke;
  stroke: var(--panel);
  stroke-width: 5px
}
.box {
  fill: transparent
}
.ev.m .box {
  fill: var(--hit)
}
.ev.s .box,
.ev.s:hover .box {
  fill: var(--self);
  stroke: var(--ink);
  stroke-width: 1
}
.ev.s .lab {
  stroke: var(--self)
}
.p {
  color: var(--past)
}
.f {
  color: var(--next)
}
.f text {
  font-style: italic
}
.ln.f,
.xe.f {
  stroke-dasharray: 7 2
}
.n {
  opacity: .25
}
.tk {
  fill: var(--soft)
}
.p .tk,
.f .tk,
.s .tk {
  fill: currentColor
}
.ln {
  stroke: var(--faint);
  stroke-width: 2;
  fill: none
}
.ln.fold {
  stroke-width: 5
}
.mk {
  stroke: currentColor;
  fill: none
}
.mk.hit {
  stroke: var(--race);
  stroke-width: 3
}
.ln.w {
  stroke-dasharray: 1 4;
  stroke-linecap: round
}
.ln.p {
  stroke: var(--past);
  stroke-width: 2.6
}
.ln.f {
  stroke: var(--next);
  stroke-width: 2.6
}
.ar {
  fill: var(--bar);
  stroke: var(--barline);
  stroke-width: 1
}
.ar.h {
  fill: url(#hatch)
}
.ar.p {
  stroke: var(--past);
  stroke-width: 1.6
}
.ar.f {
  stroke: var(--next);
  stroke-width: 1.6
}
.xe {
  stroke: var(--soft);
  stroke-width: 1.2;
  fill: none
}
.xe.p {
  stroke: var(--past);
  stroke-width: 2
}
.xe.f {
  stroke: var(--next);
  stroke-width: 2
}
.xe.race {
  stroke: var(--race);
  stroke-width: 1.6;
  stroke-dasharray: 5 3
}
.xe.race.p,
.xe.race.f {
  stroke-width: 2.4
}
.rdy {
  color: var(--ready)
}
.wt {
  color: var(--soft)
}
.rg0 {
  color: var(--ring)
}
@media screen and (max-width: 1060px) {
  footer {
    flex-wrap: wrap;
    white-space: normal
  }
}
@media screen and (max-width: 760px) {
  header,
  footer {
    flex-wrap: wrap;
    white-space: normal
  }
  main {
    flex-direction: column
  }
  #map {
    display: none
  }
  #view {
    flex: 1 1 55%
  }
  aside {
    width: auto;
    flex: 1 1 45%;
    overflow: auto;
    border-left: 0;
    border-top: 1px solid var(--hair)
  }
  #card,
  #vals {
    max-height: none;
    overflow: visible
  }
  #src {
    flex: none;
    max-height: 200px
  }
}
@media print {
  @page {
    margin: 12mm
  }
  :root {
    --bg: #fff;
    --panel: #fff
  }
  header button:not(.chip),
  header input,
  .cmd button,
  footer,
  #map,
  aside #src,
  #pic {
    display: none !important
  }
  body,
  main,
  #view,
  aside {
    display: block;
    height: auto;
    overflow: visible
  }
  aside {
    width: auto;
    border: 0
  }
  #card {
    max-height: none
  }
  #sheets p {
    margin: 0 0 8px
  }
  #sheets svg {
    display: block;
    overflow: hidden;
    page-break-inside: avoid;
    break-inside: avoid;
    width: 100%;
    height: auto;
    margin-bottom: 6px
  }
  #pad {
    height: auto !important;
    width: auto !important
  }
  h2 {
    break-after: avoid
  }
  tr,
  .cmd {
    break-inside: avoid
  }
  .box {
    stroke: none
  }
}
</style></head>
<body>
<svg width="0" height="0" style="position:absolute"><defs>
<pattern id="hatch" width="5" height="5" patternUnits="userSpaceOnUse" patternTransform="rotate(45)">
<rect width="5" height="5" fill="var(--bg)"/><line y2="5" stroke="var(--barline)" stroke-width="1.6"/></pattern>
</defs></svg>
<header><h1 id="title"></h1><button id="state" class="chip" data-k="w" title="what waits now (w)"></button>
<span class="sub" id="sub"></span>
<input id="find" type="search" placeholder="find  ( / )"
  aria-label="find events: a variable, a channel, a word of the event">
<button data-k="q" id="bq" title="show or hide loop turns and tests (q)">turns, tests</button>
<button data-k="-" title="smaller (-)">−</button><button data-k="+" title="larger (+)">+</button>
<button data-k="w" title="what waits now (w)">now</button>
<button data-k="d" title="light or dark (d)">◐</button><button data-k="?" title="keys (?)">?</button></header>
<main>
<div id="view" tabindex="0" role="application"
  aria-label="space-time diagram of the run; arrow keys go from event to event">
<div id="pad"><svg id="pic" xmlns="http://www.w3.org/2000/svg"></svg></div><div id="sheets"></div></div>
<canvas id="map" title="the whole run; click to go there"></canvas>
<aside><section id="card" aria-live="polite"></section><pre id="src" aria-label="source"></pre>
<section id="vals"></section></aside></main>
<footer id="bar"></footer>
<div id="help" hidden><h2>Keys</h2><table>
<tr><td>↓ ↑ or j k<td>next and previous event of the lane<tr>
<td>→ ←<td>the other lane of a rendezvous, else the lane beside<tr>
<td>c / f<td>the last cause / the first follower<tr><td>] [<td>next and previous ticket
<tr><td>Esc<td>no event: the state at the end<tr><td>/ and Enter<td>find, and the next that was found<tr>
<td>q<td>turns and tests shown or not<tr><td>+ -<td>larger, smaller (or Ctrl and the wheel)<tr>
<td>w<td>what waits now<tr><td>d<td>light or dark</table>
<h2>Reading</h2>
<div>Down is time: the row of an event is the length of the longest chain of causes before it.
A lane is a branch; the environment's ports are at the sides.
A link is a rendezvous, its arrow points at the receiver.
A green bar is an arm that a handshake encloses, a hatched one the side that is held meanwhile.
A dotted lane waits. A dashed purple curve is an order that only a shared variable gives: a race.
Click the name of a block to fold it.</div>
<h2>To go on from here</h2><code id="again"></code></div>
"#;
