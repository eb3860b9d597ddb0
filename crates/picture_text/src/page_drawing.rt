// What stands in the page behind the script of the data, with its drawing. Made by scripts/picture_page of page/page.html, which is edited in place of this file.

/// What stands in the page behind the script of the data, with its drawing.
pub(crate) const DRAWING: &str = r#"
<script>
'use strict';
// ---- the run: everything here is in the data or follows from it
const R = JSON.parse(document.getElementById('run').textContent),
  $ = id => document.getElementById(id),
  view = $('view');
const esc = s => String(s).replace(/[&<>"]/g, c => '&#' + c.charCodeAt(0) + ';');
const L = R.lanes.map(([path, inst, line, side, chan]) => ({
  path,
  inst,
  line,
  side,
  chan,
  evs: []
}));
const E = R.events.map((r, i) => {
  const f = r[0].split(' '),
    two = r[2] >= 0,
    n = f.length,
    k = f[0];
  return {
    i,
    t: R.tickets === 1 ? i + 1 : R.tickets[i],
    text: r[0],
    k,
    a: r[1],
    b: r[2],
    la: r[3],
    lb: r[4],
    depth: r[5],
    w: r[6],
    reads: r[7],
    to: r[8].map(x => i + x),
    since: r[9] || [],
    from: [],
    A: two ? f[n - 2] : f[n - 1],
    B: two ? f[n - 1] : '',
    name: /turn|test/.test(k) ? '' : f[1],
    val: /assign|meet|open/.test(k) && f[2] !== '-' ? f[2] : '',
    quiet: k === 'turn' || k === 'test',
    lane: two && k !== 'sync' ? r[2] : r[1],
    line: two && k !== 'sync' ? r[4] : r[3]
  }
});
const N = E.length,
  raceOf = new Map(R.races.map(([j, i, v]) => [j + ',' + i, R.variables[v][0]]));
for (const e of E) {
  for (const j of e.to) E[j].from.push(e.i);
  L[e.a].evs.push(e.i);
  if (e.b >= 0) L[e.b].evs.push(e.i)
}
const inst = k => L[k].inst < 0 ? null : R.instances[L[k].inst];
const named = i => i[1] + i[0]; // as the outline and the variables have it: 5:fork
const whereOf = i => (i[2] < 0 ? '' : ', called on line ' + i[3]) + ', its body from line ' + i[4];
const who = k => L[k].side === 'body' ? named(inst(k)) : (L[k].side === 'out' ? 'output ' : L[k].side === 'in' ?
  'input ' : 'sync port ') + R.channels[L[k].chan][0];
const short = (name, k) => {
  const p = name.slice(0, name.lastIndexOf(':') + 1);
  return p && L[k].inst >= 0 && inst(k)[1].startsWith(p) ? name.slice(p.length) : name
};
// the branch that a place lies in, of this turn of the loops around it
const incarnation = a => (a.match(/^.*\/[1-9]\d*/) || ['/0'])[0];
const split = a => a.match(/[./]\d+/g) || [];

// is place a before place b: at the first difference both are ordered, a's less
function before(a, b) {
  a = split(a);
  b = split(b);
  for (let k = 0; k < a.length && k < b.length; k++)
    if (a[k] !== b[k]) return a[k][0] === '.' && b[k][0] === '.' && +a[k].slice(1) < +b[k].slice(1);
  return false
}

function cone(i, next) {
  const seen = new Uint8Array(N),
    q = [i];
  seen[i] = 1;
  while (q.length) {
    for (const j of next(E[q.pop()]))
      if (!seen[j]) {
        seen[j] = 1;
        q.push(j)
      }
  }
  seen[i] = 0;
  return seen
}

function values(before) {
  const v = R.variables.map(() => [0, -1]);
  for (const e of E)
    if (e.w >= 0 && (!before || before[e.i])) v[e.w] = [e.val, e.i];
  return v
}
// ---- state of the page
const ROWS = [1, 2, 4, 8, 13, 20, 24, 30],
  CW = 6.75,
  SW = 5.55;
let zoom = 6,
  quiet = N <= 1500,
  sel = -1,
  hover = -1,
  lane = -1,
  find = '',
  closed = new Set(),
  st = new Uint8Array(N),
  hits = null,
  fontText = true;
let some0 = false,
  cols, colOf, hid, pre, row, X, Y, BL, BW, rowTop, rowAt, rowEv, rowNames, H, W, headH, head, now, nowTop,
  bars, edges, laneEv;
const focus = () => sel >= 0 ? sel : hover;
// the words of an event: its name, what stands between, and its value
const label = e => e.k === 'turn' ? ['turn', '', ''] :
  e.k === 'test' ? [e.text.split(' ').slice(0, 2).join(' '), '', ''] :
  e.k === 'close' ? ['', '', ''] :
  [short(e.name, e.lane), e.val === '' ? '' : e.k === 'assign' ? ' := ' : ' ', e.val];
const letters = words => words.join('').length;
// how many letters have to fit: the value, and of a longer name some
const least = ([name, between, value]) => Math.min(name.length, 6) + between.length + value.length;
// the words in so many letters: the name is cut, the value stays whole
const shorten = ([name, between, value], n) => [cut(name, n - between.length - value.length), between, value];
const written = ([name, between, value]) => esc(name + between) + (value && `<tspan class="v">${value}</tspan>`);
const stored = e => e.k === 'meet' && e.w >= 0 ? short(R.variables[e.w][0], e.b) : '';
// where there is room for so many letters more than a brief name has, the whole is cut
const fits = (s, brief, n, more = n) =>
  s.length > n && brief && brief.length <= n && n < brief.length + more ? brief : cut(s, n);
const cut = (s, n) => s.length <= n ? s : n < 2 ? '' : s.slice(0, n - 1) + '…';
// ---- layout: columns, rows by depth, and in a row tracks so that no two boxes meet
function layout() {
  const text = fontText = ROWS[zoom] >= 20,
    avail = view.clientWidth - 84;
  cols = [];
  colOf = [];
  let last = -2;
  L.forEach((l, k) => {
    if (!l.evs.length && k && l.inst >= 0 && L[k - 1].inst === l.inst && !R.places.some(p => p[0] === k)) {
      colOf[k] = cols.length - 1;
      return
    }
    let top = -1;
    for (let i = l.inst; i >= 0; i = R.instances[i][2])
      if (closed.has(i)) top = i;
    if (top >= 0 && top === last) cols.at(-1).lanes.push(k);
    else cols.push({
      lanes: [k],
      box: top
    });
    last = top;
    colOf[k] = cols.length - 1
  });
  hid = new Uint8Array(N);
  row = new Int32Array(N);
  pre = [];
  let some = false,
    rows = 0;
  for (const e of E) {
    if (!quiet && e.quiet || cols[colOf[e.a]].box >= 0 && (e.b < 0 || colOf[e.b] === colOf[e.a])) hid[e.i] = 1,
      some = true
  }
  for (const e of E) {
    let d = 0;
    for (const j of e.from) d = Math.max(d, row[j] + (hid[j] ? 0 : 1));
    row[e.i] = d;
    if (!hid[e.i]) rows = Math.max(rows, d + 1);
    pre[e.i] = some && e.from.some(j => hid[j]) ? [...new Set(e.from.flatMap(j => hid[j] ? pre[j] : [j]))] : e.from
  }
  some0 = some;
  // columns as wide as their labels ask
  const need = cols.map(c => text ? (c.box >= 0 ? 70 : 38) : 0);
  // and what stands left of the first
  let margin = 26;
  if (text) {
    for (const e of E)
      if (!hid[e.i]) {
        const c = colOf[e.lane],
          said = label(e),
          beside = 20 + String(e.t).length * SW;
        if (e.b < 0) need[c] = Math.max(need[c], Math.min(170, beside + letters(said) * (e.quiet ? SW : CW)),
          e.val === '' ? 0 : beside + least(said) * CW);
        else if (stored(e)) {
          const at = colOf[e.b] > colOf[e.a] ? c : c - 1,
            wide = Math.min(120, 22 + stored(e).length * SW);
          if (at >= 0) need[at] = Math.max(need[at], wide);
          else margin = Math.max(margin, wide)
        }
      }
    cols.forEach((c, i) => {
      const l = L[c.lanes[0]];
      if (l.side !== 'body') need[i] = Math.max(need[i], Math.min(110, 14 + Math.max(R.channels[l.chan][0]
        .length * 7, ((l.side === 'in' ? 4 : 6) + String(l.evs.length).length * 2) * SW)))
    });
    for (let i = 0; i < cols.length;) {
      let j = i + 1,
        d = need[i];
      const k = L[cols[i].lanes[0]].inst;
      while (j < cols.length && L[cols[j].lanes[0]].inst === k) d += need[j++];
      if (k >= 0) {
        const w = Math.min(150, named(R.instances[k]).length * CW + 20);
        if (d < w) need[j - 1] += w - d
      }
      i = j
    }
    const spans = new Map();
    for (const e of E)
      if (!hid[e.i] && e.b >= 0) {
        const a = Math.min(colOf[e.a], colOf[e.b]),
          b = Math.max(colOf[e.a], colOf[e.b]),
          said = label(e),
          beside = 40 + String(e.t).length * SW,
          w = Math.max(Math.min(150, beside + letters(said) * CW), e.val === '' ? 0 : beside + least(said) * CW);
        if (w > (spans.get(b * 9999 + a) || 0)) spans.set(b * 9999 + a, w)
      }
    for (const [key, w] of [...spans].sort((x, y) => x[0] - y[0])) {
      const b = Math.floor(key / 9999),
        a = key % 9999;
      let d = 0;
      for (let c = a; c < b; c++) d += need[c];
      if (d < w) need[b - 1] += w - d
    }
  } else need.fill(Math.max(5, Math.min(110, avail / cols.length)));
  let total = need.reduce((s, x) => s + x, 0);
  if (text && total < avail) {
    const f = Math.min(2.2, avail / total);
    need.forEach((_, i) => need[i] *= f)
  }
  let x = 46 + (text ? margin : 8);
  X = cols.map((c, i) => {
    const at = x;
    x += need[i];
    return at
  });
  W = Math.max(x + 10, 200);
  // heads: one line for each level of blocks around a lane, one for the lane
  const chain = cols.map(c => {
    const out = [];
    for (let i = c.box >= 0 ? c.box : L[c.lanes[0]].inst; i >= 0; i = R.instances[i][2]) out.unshift(i);
    return out
  });
  const deep = Math.max(1, ...chain.map(c => c.length)),
    skip = Math.max(0, deep - 4);
  head = [];
  for (let d = skip; d < deep; d++)
    for (let i = 0; i < cols.length;) {
      let j = i + 1;
      const own = chain[i][d];
      if (own === undefined) {
        i++;
        continue
      }
      while (j < cols.length && chain[j][d] === own) j++;
      head.push({
        x0: X[i] - (text ? 20 : 3),
        x1: (j < cols.length ? X[j] - (text ? 20 : 3) : W) - 3,
        row: d - skip,
        inst: own,
        n: j - i,
        leaf: j === i + 1 && chain[i].length === d + 1,
        box: cols[i].box === own
      });
      i = j
    }
  const tight = need.some((w, i) => w < 64);
  head.deep = deep - skip;
  head.tight = tight;
  headH = (deep - skip) * 18 + (tight && !text ? 6 : 22) + 6;
  // edges between lanes
  edges = [];
  for (const e of E)
    if (!hid[e.i])
      for (const j of pre[e.i]) {
        const p = E[j],
          pl = p.b >= 0 ? [p.a, p.b] : [p.a],
          el = e.b >= 0 ? [e.a, e.b] : [e.a];
        if (pl.some(k => el.includes(k))) continue;
        let best = null;
        for (const u of pl)
          for (const v of el) {
            const o = before(at(j, u), at(e.i, v)),
              d = Math.abs(X[colOf[u]] - X[colOf[v]]) - (o ? 1e6 : 0);
            if (!best || d < best[0]) best = [d, u, v, o]
          }
        if (colOf[best[1]] !== colOf[best[2]])
          edges.push([j, e.i, best[1], best[2], best[3] ? '' : raceOf.get(j + ',' + e.i) || ' '])
      }
  // the names of variables that alone make an order, each once beside its event
  const beside = new Map();
  rowNames = [];
  if (text)
    for (const edge of edges)
      if (edge[4].trim()) {
        const key = edge[1] + ' ' + edge[4];
        if (!beside.has(key) || beside.get(key)[0] < edge[0]) beside.set(key, edge)
      }
  for (const [j, i, u, v, race] of beside.values()) {
    const xa = X[colOf[u]],
      xb = X[colOf[v]],
      t = cut(race, Math.min(48, Math.max(18, Math.floor((Math.abs(xb - xa) - 24) / SW)))),
      w = t.length * SW,
      low = row[i] - row[j] < 2 ? (xa + xb - w) / 2 : xa < xb ? xb - 6 - w : xb + 6,
      x = Math.max(40, Math.min(low, W - w - 4));
    (rowNames[row[i]] ||= []).push({i, j, t, w, x})
  }
  // rows and tracks, above them those of the names
  rowEv = Array.from({length: rows}, () => []);
  for (const e of E)
    if (!hid[e.i]) rowEv[row[e.i]].push(e.i);
  Y = new Float64Array(N);
  BL = new Float64Array(N);
  BW = new Float64Array(N);
  rowTop = new Float64Array(rows + 1);
  rowAt = new Float64Array(rows);
  const big = ROWS[zoom],
    small = text ? 15 : Math.max(1, big * .6);
  let y = headH + 8;
  for (let r = 0; r < rows; r++) {
    rowTop[r] = y;
    const ends = [];
    for (const name of (rowNames[r] || []).sort((p, q) => p.x - q.x)) {
      let k = ends.findIndex(end => end + 6 < name.x);
      if (k < 0) k = ends.length;
      ends[k] = name.x + name.w;
      name.y = y + k * 12 + 9
    }
    y += ends.length * 12;
    rowAt[r] = y;
    const tracks = [];
    for (const i of rowEv[r]) {
      const e = E[i],
        xa = X[colOf[e.a]],
        xb = e.b >= 0 ? X[colOf[e.b]] : xa;
      let l = Math.min(xa, xb) - 4,
        h = Math.max(xa, xb) + 4;
      if (text) {
        const tk = String(e.t).length * SW;
        if (e.b < 0) {
          const room = (X[colOf[e.a] + 1] || W) - xa - 16 - tk;
          l -= tk + 8;
          h += 6 + Math.min(room, letters(label(e)) * (e.quiet ? SW : CW))
        } else {
          if (stored(e)) xb > xa ? h += stored(e).length * SW + 10 : l -= stored(e).length * SW + 10;
          if (e.k === 'close') {
            l -= 2;
            h += 2
          }
        }
      }
      BL[i] = l;
      BW[i] = h - l
    }
    for (const i of rowEv[r].sort((p, q) => BL[p] - BL[q])) {
      let k = tracks.findIndex(t => t.end + 5 < BL[i]);
      if (k < 0) {
        k = tracks.length;
        tracks.push({end: 0, ev: [], tall: false})
      }
      tracks[k].end = BL[i] + BW[i];
      tracks[k].ev.push(i);
      if (!E[i].quiet && E[i].k !== 'close') tracks[k].tall = true
    }
    for (const t of tracks) {
      const h = t.tall ? big : small;
      for (const i of t.ev) Y[i] = y + (text && t.tall ? h * .66 : h / 2);
      y += h
    }
  }
  rowTop[rows] = y;
  H = y;
  laneEv = L.map(l => l.evs.filter(i => !hid[i]));
  // bars of enclosed handshakes
  bars = [];
  const open = new Map(),
    depthOf = L.map(() => []);
  for (const e of E) {
    if (e.k === 'open') {
      open.set(e.name, e)
    } else if (e.k === 'close') {
      const o = open.get(e.name);
      open.delete(e.name);
      bar(o, e)
    }
  }
  for (const o of open.values()) bar(o, null);
  bars.sort((p, q) => p.o.i - q.o.i);

  function bar(o, c) {
    if (hid[o.i]) return;
    bars.push({lane: o.b, o, c, held: false}, {lane: o.a, o, c, held: true})
  }
  const byLane = L.map(() => []);
  bars.forEach(b => byLane[b.lane].push(b));
  byLane.forEach(bs => {
    bs.sort((p, q) => p.o.i - q.o.i);
    const up = [];
    for (const b of bs) {
      while (up.length && up.at(-1).c && up.at(-1).c.i < b.o.i) up.pop();
      b.lv = up.length;
      up.push(b)
    }
  });
  place();
  mapDraw();
}
// what stands at the end: ready events and waits, each in a track of its own
function place() {
  nowTop = H + 30;
  now = [];
  const ringOf = new Map();
  R.rings.forEach(r => r.forEach((p, i) => ringOf.set(p, r[(i + 1) % r.length])));
  R.ready.forEach((r, i) => {
    if (N > 1500 && i > 200) return;
    const xa = X[colOf[r[1]]],
      xb = r[2] >= 0 ? X[colOf[r[2]]] : xa,
      f = r[0].split(' '),
      assign = f[0] === 'assign',
      said = /turn|test|close/.test(f[0]) ? [f.slice(0, 2).join(' ').replace(/ \/.*/, ''), '', ''] :
      !assign && !(/meet|open/.test(f[0]) && f[2] !== '-') ? [short(f[1], r[2] < 0 ? r[1] : r[2]), '', ''] :
      [short(f[1], assign || r[2] < 0 ? r[1] : r[2]), assign ? ' := ' : ' ', f[2]],
      t = shorten(said, Math.max(22, least(said))).join('');
    now.push({
      ready: i,
      xa,
      xb,
      t,
      l: Math.min(xa, xb) - 6,
      h: Math.max(Math.max(xa, xb) + 6, Math.min(xa, xb) + 22 + t.length * CW)
    })
  });
  R.places.forEach((p, i) => {
    if (p[5] || L[p[0]].side !== 'body' || p[3] === 'go' || N > 1500 && now.length > 400) return;
    const xa = X[colOf[p[0]]],
      to = [...new Set(p[4].flatMap(o => o[1]))];
    let xs = to.map(k => X[colOf[k]]);
    const ring = ringOf.has(i);
    if (ring) {
      const t = X[colOf[R.places[ringOf.get(i)][0]]];
      xs = [t]
    }
    const t = (p[3] === 'held' ? 'held ' : '') + p[4].map(o => short(R.channels[o[0]][0], p[0])).join(' | ') +
      (!p[4].length || p[4].some(o => o[2]) ? '' : p[3] === 'held' ? ' (for ever)' : ' (none comes)'),
      far = xs.reduce((p, q) => Math.abs(q - xa) > Math.abs(p - xa) ? q : p, xa),
      wide = t.length * CW + 24,
      // the text stands over the arrow, or right of the place where there is no room
      left = far < xa && xa - wide > 34;
    now.push({
      wait: i, xa, xs, t, ring, left,
      l: Math.min(xa, ...xs, left ? xa - wide : xa) - 6,
      h: Math.max(xa, ...xs, left ? xa : xa + wide) + 8
    })
  });
  const tracks = [];
  now.sort((p, q) => (q.ready !== undefined) - (p.ready !== undefined) || p.l - q.l).forEach(z => {
    let k = tracks.findIndex(t => t + 6 < z.l);
    if (k < 0) {
      k = tracks.length;
      tracks.push(0)
    }
    tracks[k] = z.h;
    z.y = nowTop + 14 + k * 22
  });
  const h = now.length ? nowTop + 14 + tracks.length * 22 + 14 : H + 24;
  now.end = h;
  now.wide = fontText ? now.reduce((most, z) => Math.max(most, z.h), W) : W;
  $('pad').style.width = Math.max(now.wide, view.clientWidth - 1) + 'px';
  $('pad').style.height = Math.max(h, view.clientHeight - 1) + 'px'
}
// ---- drawing of what is in sight
const CLS = ['', 'p', 'f', 's', 'n'];
const pair = (i, j) => {
  if (focus() < 0) return '';
  const a = st[i],
    b = st[j],
    m = 3;
  return (a === 1 || a === m) && (b === 1 || b === m) ? 'p' : (a === 2 || a === m) && (b === 2 || b === m) ? 'f' :
    a === 1 && b === 2 ? '' : 'n'
};
const lower = (a, y) => {
  let lo = 0,
    hi = a.length;
  while (lo < hi) {
    const m = lo + hi >> 1;
    Y[a[m]] < y ? lo = m + 1 : hi = m
  }
  return lo
};

const isFree = (lane, a, b) => {
  const i = lower(laneEv[lane], a + 1);
  return i === laneEv[lane].length || Y[laneEv[lane][i]] > b - 1
};

function picture(sx, sy, w, h) {
  const text = fontText,
    mini = ROWS[zoom] < 8,
    acc = new Map(),
    add = (c, d) => acc.set(c, (acc.get(c) || '') + d),
    flush = () => {
      for (const [c, d] of acc) o.push(`<path class="${c}" d="${d}"/>`);
      acc.clear()
    },
    o = [],
    y0 = sy - 40,
    y1 = sy + h + 40,
    yn = now.end - 10,
    tiny = !text;
  o.push(`<g transform="translate(${-sx},${-sy})">`);
  const step = [1, 2, 5, 10, 20, 50, 100, 200, 500, 1000, 2000, 5000].find(s => s * (H - headH) / Math.max(1, rowTop
    .length - 1) >= 44) || 10000;
  let r0 = 0; {
    let lo = 0,
      hi = rowTop.length;
    while (lo < hi) {
      const m = lo + hi >> 1;
      rowTop[m] < y0 - 60 ? lo = m + 1 : hi = m
    }
    r0 = Math.max(0, lo - 1)
  }
  // lanes
  cols.forEach((c, ci) => {
    const x = X[ci];
    if (x < sx - 300 || x > sx + w + 300) return;
    if (c.box >= 0) {
      add('ln fold', `M${x} ${Math.max(headH,y0)}V${Math.min(yn,y1)}`);
      return
    }
    const k = c.lanes[0],
      ev = laneEv[k],
      seg = (a, b, cl) => b >= y0 && a <= y1 && add('ln ' + cl,
        `M${x} ${Math.max(a,y0).toFixed(1)}V${Math.min(b,y1).toFixed(1)}`);
    const stands = R.places.filter(p => p[0] === k && p[3] !== 'go' || p[0] === k && p[5]),
      tail = ev.length ? incarnation(at(ev.at(-1), k)) : incarnation(L[k].path);
    if (ev.length ? !/\.[1-9]/.test(incarnation(at(ev[0], k))) : L[k].inst >= 0 && stands.length) seg(headH, ev
      .length ? Y[ev[0]] : yn, (!ev.length || row[ev[0]] ? 'w ' : '') + (focus() < 0 || !ev.length ? '' : st[
        ev[0]] === 1 ? 'p' : 'n'));
    const i0 = Math.max(1, lower(ev, y0));
    for (let i = i0; i < ev.length; i++) {
      const p = ev[i - 1],
        e = ev[i];
      if (Y[p] > y1) break;
      if (incarnation(at(p, k)) === incarnation(at(e, k)) || pre[e].includes(p)) seg(Y[p], Y[e], (row[e] - row[
        p] > 1 ? 'w ' : '') + pair(p, e))
    }
    if (ev.length) {
      const e = ev.at(-1);
      if (stands.some(p => incarnation(p[1]) === tail)) seg(Y[e], yn, 'w ' + (focus() < 0 ? '' : 'n'));
      else if (Y[e] > y0 && Y[e] < y1) add('ln ' + (focus() < 0 ? '' : 'n'), `M${x} ${Y[e]}v9m-5 0h10`)
    }
  });
  flush();
  for (const b of bars) {
    const a = Y[b.o.i],
      z = b.c && !hid[b.c.i] ? Y[b.c.i] : yn;
    if (z < y0 || a > y1 || cols[colOf[b.lane]].box >= 0) continue;
    const x = X[colOf[b.lane]],
      q = tiny ? 4 : Math.max(5, 15 - 4 * b.lv);
    o.push(
      `<rect class="ar ${b.held?'h ':''}${pair(b.o.i,b.c?b.c.i:b.o.i)}" x="${x-q/2}" width="${q}" ` +
      `y="${Math.max(a,y0-9)}" height="${Math.max(1,Math.min(z,y1+9)-Math.max(a,y0-9))}" rx="2.5"/>`
      )
  }
  for (const [j, i, u, v, race] of edges) {
    if (Math.max(Y[i], Y[j]) < y0 || Math.min(Y[i], Y[j]) > y1) continue;
    const xa = X[colOf[u]],
      xb = X[colOf[v]],
      ya = Y[j],
      yb = Y[i],
      m = (ya + yb) / 2,
      q = text ? 1 : ROWS[zoom] / 24;
    // down in a lane where nothing stands between them
    const own = isFree(u, ya, yb),
      other = isFree(v, ya, yb);
    add(`xe ${race?'race ':''}${pair(j,i)}`, race || !own && !other ?
      `M${xa} ${ya+4*q}C${xa} ${m+4*q} ${xb} ${m+2*q} ${xb} ${yb-4*q}` :
      other && (!own || L[v].path.length > L[u].path.length) ?
      `M${xa} ${ya+3*q}C${xa} ${ya+15*q} ${xb} ${ya+7*q} ${xb} ${Math.min(yb-4*q,ya+20*q)}V${yb-3*q}` :
      `M${xa} ${ya+3*q}V${Math.max(ya+4*q,yb-18*q)}C${xa} ${yb-6*q} ${xb} ${yb-12*q} ${xb} ${yb-2*q}`);
  }
  flush();
  for (let r = r0; r < rowEv.length && rowTop[r] < y1; r++)
    for (const {i, j, t, x, y} of rowNames[r] || []) o.push(
      `<text class="s9 lab ${pair(j,i)==='n'?'n':''}" style="fill:var(--race)" x="${x}" y="${y}">${esc(t)}</text>`);
  // events
  for (let r = r0; r < rowEv.length && rowTop[r] < y1; r++)
    for (const i of rowEv[r]) {
      if (mini && st[i] !== 3) {
        const e = E[i],
          xa = X[colOf[e.a]],
          xb = e.b >= 0 ? X[colOf[e.b]] : xa - 2;
        add(`mk ${CLS[st[i]]}${hits&&hits[i]?' hit':''}`, `M${xa+(e.b<0?2:0)} ${Y[i].toFixed(1)}H${xb}`);
        continue
      }
      if (BL[i] > sx + w + 40 || BL[i] + BW[i] < sx - 40) continue;
      o.push(drawEvent(E[i], text))
    }
  flush();
  // now
  if (now.length && now.end > y0 && nowTop - 20 < y1) {
    o.push(`<line x1="0" x2="${Math.max(W,w)}" y1="${nowTop-8}" y2="${nowTop-8}" stroke="var(--faint)"/>`);
    for (const z of now) {
      if (z.y < y0 || z.y > y1) continue;
      const y = z.y;
      if (z.ready !== undefined) {
        o.push(
          `<g class="ev rdy" data-r="${z.ready}">` +
            `<rect class="box" x="${z.l}" y="${y-12}" width="${z.h-z.l}" height="20" rx="3"/>` +
          (z.xa !== z.xb ?
            `<line x1="${z.xa}" x2="${z.xb}" y1="${y}" y2="${y}" stroke="currentColor" ` +
            `stroke-width="1.6" stroke-dasharray="2 3"/>` :
            '') + [z.xa, z.xb].map(x =>
            `<circle cx="${x}" cy="${y}" r="4" fill="var(--bg)" stroke="currentColor" stroke-width="1.6"/>`).join(
            '') + (text ?
            `<text class="lab" x="${Math.min(z.xa,z.xb)+9}" y="${y+(z.xa===z.xb?4:-4)}">▸ ${z.t}</text>` : '') +
          '</g>');
        continue
      }
      const c = z.ring ? 'rg0' : 'wt',
        right = z.xs.some(x => x > z.xa);
      o.push(
        `<g class="ev ${c}" data-w="${z.wait}">` +
          `<rect class="box" x="${z.l}" y="${y-12}" width="${z.h-z.l}" height="20" rx="3"/>`
        );
      for (const x of z.xs)
        if (x !== z.xa) {
          const d = x > z.xa ? -7 : 7;
          o.push(
            `<line x1="${z.xa}" x2="${x+d/2}" y1="${y}" y2="${y}" stroke="currentColor" ` +
            `stroke-width="${z.ring?2.4:1.3}" ${z.ring?'':'stroke-dasharray="5 4"'}/>` +
              `<polygon points="${x},${y} ${x+d},${y-4} ${x+d},${y+4}" fill="currentColor"/>`
            )
        }
      o.push(
        `<rect x="${z.xa-4}" y="${y-4}" width="8" height="8" fill="var(--bg)" ` +
        `stroke="currentColor" stroke-width="1.8"/>` +
        (text ?
          `<text class="lab" x="${z.left?z.xa-9:z.xa+9}" y="${y+(z.left||right?-5:4)}" ` +
          `text-anchor="${z.left?'end':'start'}">${z.t}</text>` :
          '') + '</g>')
    }
  }
  o.push('</g>');
  // the ruler of depths at the left, the heads on top
  o.push(`<rect x="0" y="0" width="34" height="${h}" fill="var(--bg)"/>`);
  for (let r = r0; r < rowEv.length && rowTop[r] < y1; r++)
    if (r % step === 0) o.push(
      `<text class="s9 tk ruler" x="30" y="${(rowAt[r]-sy+(text?12:4)).toFixed(1)}" text-anchor="end">${r}</text>`);
  if (now.length) o.push(
    `<text class="s9 tk ruler" x="30" y="${nowTop-sy+8}" text-anchor="end" style="font-weight:700">now</text>`);
  o.push(
    `<rect x="0" y="0" width="${w}" height="${headH}" fill="var(--panel)"/>` +
      `<line x1="0" x2="${w}" y1="${headH}" y2="${headH}" stroke="var(--faint)"/>` +
      `<g class="hd" transform="translate(${-sx},0)">`
    );
  for (const b of head) {
    if (b.x1 < sx || b.x0 > sx + w) continue;
    const I = R.instances[b.inst],
      full = (b.box ? '▸ ' : '') + named(I),
      wd = b.x1 - b.x0,
      y = 4 + b.row * 18,
      left = Math.max(b.x0, Math.min(sx + 36, b.x1 - full.length * CW - 8));
    o.push(
      `<g class="ev" data-i="${b.inst}" tabindex="0" role="button">` +
        `<title>${esc(I[0]+' '+I[1]+' ('+I[5]+')'+whereOf(I))}</title>` +
        `<rect x="${b.x0}" y="${y}" width="${Math.max(2,wd)}" height="16" rx="3" ` +
        `fill="var(--bg)" stroke="var(--faint)"/>` +
        `<text x="${left+5}" y="${y+12}" style="font-weight:600">` +
        esc(fits(full, I[1].slice(0, -1), Math.floor((b.x1 - left - 8) / CW), 8)) + `</text></g>`
      )
  }
  cols.forEach((c, i) => {
    const x = X[i];
    if (x < sx - 200 || x > sx + w + 100) return;
    // a name ends before the next block, what is below it before the next text
    const l = L[c.lanes[0]],
      left = x - (text ? 14 : 3),
      next = (X[i + 1] || W + 14) - x,
      most = Math.floor((next - (text ? 8 : 5)) / CW),
      small = Math.floor((next - 4) / SW);
    if (l.side !== 'body') {
      const ch = R.channels[l.chan],
        fd = R.feeds.find(f => f[0] === c.lanes[0]),
        used = l.evs.filter(j => E[j].k !== 'close').length;
      o.push(
        `<g><title>${l.side==='in'?'input':l.side==='out'?'output':'sync'} ${ch[0]}, ${ch[1]} bits</title>` +
          `<text x="${left}" y="${headH-26}" style="font-weight:600">${esc(cut(ch[0],most))}</text>` +
          `<text class="s9 tk" x="${left}" y="${headH-8}">` +
          cut(l.side === 'out' ? 'out ' + used : (l.side === 'in' ? 'in ' : 'sync ') + used + '/' + fd[1], small) +
          `</text></g>`
        )
    } else if (text) {
      const sub = i > 0 && c.box < 0 && cols[i - 1].box < 0 && L[cols[i - 1].lanes[0]].inst === l.inst;
      o.push(
        `<text class="s9 tk" x="${left}" y="${headH-8}">` + (c.box >= 0 ?
          cut(c.lanes.length > 1 ? c.lanes.length + ' lanes' : 'folded', small) :
          fits((sub ? '|| ' : 'line ') + l.line, String(l.line), small)) + `</text>`
        )
    }
  });
  o.push('</g>');
  // the corner over both
  o.push(`<rect x="0" y="0" width="34" height="${headH-1}" fill="var(--panel)"/>` +
    `<text class="s9 tk ruler" x="6" y="${headH-6}">${some0?'row':'depth'}</text>`);
  return o.join('')
}
const at = (i, k) => E[i].a === k ? E[i].A : E[i].B;

function drawEvent(e, text) {
  const xa = X[colOf[e.a]],
    y = +Y[e.i].toFixed(1),
    c = CLS[st[e.i]] + (hits && hits[e.i] ? ' m' : ''),
    tall = text && !e.quiet && e.k !== 'close',
    bh = text ? (tall ? 20 : 13) : Math.max(2, ROWS[zoom] * .8),
    by = tall ? y - 14 : y - bh / 2;
  let s =
    `<g class="ev ${c}" data-e="${e.i}">` +
      `<rect class="box" x="${(BL[e.i]-2).toFixed(1)}" y="${by}" width="${(BW[e.i]+4).toFixed(1)}" ` +
      `height="${bh}" rx="3"/>`;
  const said = label(e),
    tk = String(e.t);
  if (e.b < 0) {
    if (e.k === 'assign') s += text ? `<rect x="${xa-4}" y="${y-4}" width="8" height="8" fill="currentColor"/>` :
      `<rect x="${xa-2}" y="${y-1.5}" width="4" height="3" fill="currentColor"/>`;
    else if (e.k === 'turn') s +=
      `<circle cx="${xa}" cy="${y}" r="${text?3:1.2}" fill="var(--bg)" stroke="currentColor"/>`;
    else s += text ?
      `<polygon points="${xa},${y-4} ${xa+4},${y} ${xa},${y+4} ${xa-4},${y}" ` +
      `fill="var(--bg)" stroke="currentColor"/>` :
      `<circle cx="${xa}" cy="${y}" r="1.2" fill="currentColor"/>`;
    if (text) {
      const room = (X[colOf[e.a] + 1] || W) - xa - 14 - tk.length * SW;
      const words = shorten(said, Math.floor(room / (e.quiet ? SW : CW)));
      s += e.quiet ? `<text class="s9 tk lab" x="${xa+8}" y="${y+3}">${words[0]}</text>` :
        `<text class="lab" x="${xa+9}" y="${y+4}">${written(words)}</text>`;
      s += `<text class="s9 tk lab" x="${xa-10}" y="${y+3}" text-anchor="end">${tk}</text>`
    }
  } else {
    const xb = X[colOf[e.b]],
      l = Math.min(xa, xb),
      r = Math.max(xa, xb),
      sg = xb > xa ? 1 : -1,
      data = e.val !== '',
      cl = e.k === 'close',
      wd = tall || !text ? (text ? 1.7 : 1) : 1;
    s +=
      `<line x1="${xa}" x2="${data&&text?xb-sg*8:xb}" y1="${y}" y2="${y}" stroke="currentColor" ` +
      `stroke-width="${wd}" ${cl?'stroke-dasharray="3 3"':''}/>`;
    if (text && !cl) {
      s += `<circle cx="${xa}" cy="${y}" r="3.2" fill="currentColor"/>`;
      s += data ?
        `<polygon points="${xb-sg*1},${y} ${xb-sg*9},${y-4.5} ${xb-sg*9},${y+4.5}" fill="currentColor"/>` :
        `<circle cx="${xb}" cy="${y}" r="3.2" fill="currentColor"/>`
    }
    if (tall) {
      const ax = e.lane === e.b ? xb : xa,
        out = ax === r ? -1 : 1,
        tw = (tk.length + 1) * SW,
        room = r - l - 30 - tw,
        tx = ax + out * (tw + 18),
        an = out < 0 ? 'end' : 'start';
      s +=
        `<text class="s9 tk lab" x="${ax+out*12}" y="${y-4}" text-anchor="${an}">#${tk}</text>` +
          `<text class="lab" x="${tx}" y="${y-4}" text-anchor="${an}">` +
          written(shorten(said, Math.floor(room / CW))) + `</text>`;
      const q = stored(e);
      if (q) {
        const room2 = xb > xa ? (X[colOf[e.b] + 1] || W) - xb - 18 : xb - (X[colOf[e.b] - 1] || 36) - 18;
        s +=
          `<text class="s9 tk lab" x="${xb+sg*8}" y="${y+3}" text-anchor="${sg>0?'start':'end'}">` +
          cut(q, Math.floor(room2 / SW)) + `</text>`
      }
    }
  }
  return s + '</g>'
}
let queued = false;
const draw = () => {
  if (queued) return;
  queued = true;
  requestAnimationFrame(() => {
    queued = false;
    paint()
  })
};

function paint() {
  const w = view.clientWidth,
    h = view.clientHeight,
    p = $('pic');
  p.setAttribute('width', w);
  p.setAttribute('height', h);
  p.innerHTML = picture(view.scrollLeft, view.scrollTop, w, h);
  mapView()
}
"#;
