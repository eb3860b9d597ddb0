// What stands in the page from its map on. Made by scripts/picture_page of page/page.html, which is edited in place of this file.

/// What stands in the page from its map on.
pub(crate) const PANEL: &str = r##"// ---- the map: the whole run on a strip
let mapImage = null;
const css = v => getComputedStyle(document.documentElement).getPropertyValue(v);

function mapDraw() {
  const c = $('map');
  c.style.display = now.end > view.clientHeight * 1.3 ? '' : 'none';
  const w = c.width = 58,
    h = c.height = Math.max(50, view.clientHeight);
  mapImage = document.createElement('canvas');
  mapImage.width = w;
  mapImage.height = h;
  const g = mapImage.getContext('2d'),
    f = (h - 4) / now.end,
    col = ['--ink', '--past', '--next', '--ink', '--faint'].map(css),
    fx = 50 / Math.max(1, cols.length);
  for (const pass of [4, 0, 1, 2, 3])
    for (const e of E)
      if (!hid[e.i] && st[e.i] === pass) {
        g.fillStyle = col[pass];
        g.globalAlpha = pass === 0 ? (e.quiet ? .25 : .6) : 1;
        const a = 4 + colOf[e.a] * fx,
          b = e.b >= 0 ? 4 + colOf[e.b] * fx : a;
        if (pass === 3) g.fillRect(0, Y[e.i] * f - 1, w, 3);
        else g.fillRect(Math.min(a, b), Y[e.i] * f, Math.max(2, Math.abs(a - b)), Math.max(.7, Math.min(2, 12 * f)))
      }
  if (R.rings.length) {
    g.globalAlpha = 1;
    g.fillStyle = css('--ring');
    g.fillRect(2, nowTop * f, w - 4, 4)
  }
}

function mapView() {
  if (!mapImage) return;
  const c = $('map'),
    g = c.getContext('2d'),
    f = (c.height - 4) / now.end;
  g.clearRect(0, 0, 58, c.height);
  g.drawImage(mapImage, 0, 0);
  g.strokeStyle = css('--ink');
  g.fillStyle = css('--past');
  g.globalAlpha = .13;
  g.fillRect(0, view.scrollTop * f, 58, Math.max(4, view.clientHeight * f));
  g.globalAlpha = .6;
  g.strokeRect(.5, view.scrollTop * f + .5, 57, Math.max(4, view.clientHeight * f));
  g.globalAlpha = 1
}
// ---- the panel
const link = (i, c) =>
  `<a class="${c||''}" href="#e${E[i].t}" data-go="${i}" title="${esc(E[i].text)}">#${E[i].t}</a>`,
  lineLink = n => n ? ` <a class="line" href="#src" data-line="${n}">line ${n}</a>` : '';
const copy = s => `<code>${esc(s)}</code><button data-copy="${esc(s)}" title="copy">copy</button>`;
const some = (a, c) => a.slice(0, 12).map(i => link(i, c)).join(' ') + (a.length > 12 ? ` … ${a.length} in all` :
  '') || '<span class="soft">none</span>';

function card() {
  const i = focus();
  let o = '';
  if (i >= 0) {
    const e = E[i],
      p = st.reduce((s, x) => s + (x === 1), 0),
      f = st.reduce((s, x) => s + (x === 2), 0);
    o =
      `<h2>Event #${e.t}</h2><code class="ev0">${esc(e.text)}</code>` +
        `<div>${esc(who(e.a))}${lineLink(e.la)}` +
        (e.b >= 0 ? ` <b>${e.val!==''?'→':'↔'}</b> ${esc(who(e.b))}${lineLink(e.lb)}` : '') + `</div>` +
      (e.since.length && e.since[0] !== e.since[1] && e.k !== 'close' ?
        `<div class="soft">${esc(who(e.since[0]<e.since[1]?e.a:e.b))} waited ${Math.abs(e.since[0]-e.since[1])} ` +
        `row${Math.abs(e.since[0]-e.since[1])===1?'':'s'} for the other</div>` :
        '') +
      (e.reads.length ?
        `<div class="soft">reads ${e.reads.map(v=>`<span class="m">${R.variables[v][0]} = ${vals0[v][0]}</span>` +
          (vals0[v][1] >= 0 ? ' of ' + link(vals0[v][1], 'cp') : '')).join(', ')}</div>` :
        '') +
      `<table><tr><td><span class="sw" style="background:var(--past)">` +
        `</span>${p} cause${p===1?'':'s'}<td>nearest ${some(e.from,'cp')}<tr><td>` +
        `<span class="sw next">` +
        `</span>${f} consequence${f===1?'':'s'}<td>nearest ${some(e.to,'cf')}<tr><td>` +
        `<span class="sw" style="background:var(--faint)">` +
        `</span>${N-1-p-f} independent<td>depth ${e.depth}</table>` +
      `<div class="cmd">${copy((f?'roll ':'undo ')+e.t)}` +
        `<span class="soft">${f?`takes back ${f+1} events`:'nothing needs it'}</span></div>`
  } else {
    const ring = R.rings[0],
      body = R.places.filter(p => !p[5] && L[p[0]].side === 'body'),
      wait = body.concat(R.places.filter(p => L[p[0]].side !== 'body' && p[3] === 'held' && !p[4][0][2]));
    o = `<h2>Now, after ${N} event${N===1?'':'s'}</h2>`;
    if (ring) o +=
      `<div class="rg">` +
        `<b>Deadlock.</b> ${ring.length} places wait in a ring, each for the next.</div>${ringPicture(ring)}`;
    if (R.ready.length) o +=
      `<div class="rd"><b>${R.ready.length} step${R.ready.length>1?'s':''} can be taken</b></div>` + R.ready.slice(
        0, 30).map(r =>
        `<div class="cmd">${copy(r[5].replace(/ 0$/,''))}` +
          `<span class="m soft" style="font-size:11px">${esc(r[0].split(' /')[0])}</span></div>`
        ).join('');
    else if (!ring) o += `<div><b>No step can be taken.</b> ${standing(body)}</div>`;
    if (wait.length) o += `<h2>Waits</h2><table>` + wait.slice(0, 60).map(p =>
      `<tr><td class="name who">${esc(who(p[0]))}${lineLink(p[2])}` +
      `<td class="name">${waitText(p)}`).join('') + '</table>'
  }
  $('card').innerHTML = o
}
const VERB = {
    send: 'sends on',
    receive: 'receives on',
    sync: 'syncs on',
    open: 'opens on',
    held: 'is held on',
    close: 'closes'
  },
  TO = {
    send: ' to ',
    receive: ' from ',
    sync: ' with ',
    open: ' from '
  };

// the ports for which the stimulus has values or handshakes
const fed = new Set(L.filter(l => l.side === 'in' || l.side === 'sync').map(l => l.chan)),
  lacks = p => TO[p[3]] && p[3] !== 'send' ? p[4].filter(o => !o[2] && fed.has(o[0])).map(o => o[0]) : [];

// how a run without a ring stands that goes on no more, where these places of the body wait
function standing(body) {
  if (R.progress === 'done') return 'The circuit has ended.';
  if (R.progress === 'out of input') return 'It waits for more stimulus on ' + [...new Set(body.flatMap(lacks))].map(
    c => `<span class="m">${esc(R.channels[c][0])}</span>`).join(' or ') + '.';
  return body.length ? 'Some of what waits never goes on, whatever the stimulus.' :
    'The circuit is at a <b>halt</b>, which never ends.'
}

function waitText(p) {
  return p[4].map((o, i) => `${i?'or':VERB[p[3]]} <span class="m">${esc(short(R.channels[o[0]][0],p[0]))}</span>` +
    (p[3] === 'held' ? (o[2] ? ' till the arm ends in ' : ' by an arm that never ends in ') : o[2] ? TO[p[3]] || ' ' :
      `<span class="soft">, none ${lacks(p).includes(o[0])?'left':'comes any more'}${o[1].length?' in':''}</span> `) +
    [...new Set(o[1].map(who))].slice(0, 3).map(esc).join(', ')).join('<br>')
}

// on which channel a place of a ring waits for the next
function ringChannel(ring, i) {
  const P = R.places[ring[i]],
    to = R.places[ring[(i + 1) % ring.length]][0],
    on = P[4].find(q => q[1].includes(to)) || P[4][0];
  return short(R.channels[on[0]][0], P[0])
}

// a ring as a picture, or as lines where a text would lie over another
const ringPicture = ring => ring.length <= 14 && ringDrawn(ring) || ringLines(ring);

function ringLines(ring) {
  const line = (p, i) => `<div>${esc(who(R.places[p][0]))}${lineLink(R.places[p][2])} ` +
    (R.places[p][3] === 'held' ? 'is held on' : 'waits on') + ` <span class="m">${esc(ringChannel(ring, i))}</span>` +
    ` for ${esc(who(R.places[ring[(i + 1) % ring.length]][0]))}</div>`;
  return `<div class="ring">${ring.slice(0, 60).map(line).join('')}` +
    (ring.length > 60 ? `<div class="soft">and ${ring.length - 60} more</div>` : '') + '</div>'
}

// the picture of a ring, if no text lies over another, over a box or an arrow, and all are within
function ringDrawn(ring) {
  const n = ring.length,
    w = 378,
    h = n < 4 ? 170 : n < 7 ? 250 : 320,
    o = [`<svg width="${w}" height="${h}" role="img" aria-label="ring of waiting"><g class="rg0">`];
  const box = ring.map((p, i) => {
    const a = 2 * Math.PI * i / n - (n === 2 ? Math.PI : Math.PI / 2),
      t = cut(who(R.places[p][0]), 17),
      bw = Math.max(64, t.length * CW + 14);
    return {
      t,
      bw,
      x: Math.max(bw / 2 + 1, Math.min(w - bw / 2 - 1, w / 2 + (w / 2 - 62) * Math.cos(a))),
      y: h / 2 + (h / 2 - 18) * Math.sin(a),
      line: R.places[p][2]
    }
  });
  const crowd = (a, b) => Math.abs(a.x - b.x) < (a.bw + b.bw) / 2 + 8 && Math.abs(a.y - b.y) < 40;
  if (box.some((a, i) => box.some((b, j) => i < j && crowd(a, b)))) return '';
  const inside = (b, x, y) => Math.abs(x - b.x) < b.bw / 2 + 3 && Math.abs(y - b.y) < 19;
  const arrows = box.map((A, i) => {
    const B = box[(i + 1) % n],
      mx = (A.x + B.x) / 2,
      my = (A.y + B.y) / 2,
      qx = mx + (n === 2 ? 0 : (mx - w / 2) * .42),
      qy = my + (n === 2 ? (i ? 1 : -1) * 70 : (my - h / 2) * .42),
      pt = t => [(1 - t) ** 2 * A.x + 2 * t * (1 - t) * qx + t * t * B.x, (1 - t) ** 2 * A.y + 2 * t * (1 - t) *
        qy + t * t * B.y
      ];
    let t0 = 0,
      t1 = 1;
    while (t0 < .5 && inside(A, ...pt(t0))) t0 += .02;
    while (t1 > .5 && inside(B, ...pt(t1))) t1 -= .02;
    const pts = [];
    for (let t = t0; t <= t1 + .001; t += (t1 - t0) / 16) pts.push(pt(t));
    const [ex, ey] = pt(t1), [fx, fy] = pt(t1 - .06),
      ang = Math.atan2(ey - fy, ex - fx) * 180 / Math.PI;
    o.push(
      `<path d="M${pts.map(p=>p.map(v=>v.toFixed(1)).join(' ')).join('L')}" ` +
        `fill="none" stroke="currentColor" stroke-width="2.2"/>` +
        `<polygon points="1,0 -9,-5 -9,5" fill="currentColor" transform="translate(${ex},${ey}) rotate(${ang})"/>`
      );
    return {pts, ex, ey}
  });
  // what a name must not meet: as middle, half a width and half a height
  const meets = (a, b) => Math.abs(a.x - b.x) < a.w + b.w && Math.abs(a.y - b.y) < a.h + b.h,
    taken = box.map(b => ({x: b.x, y: b.y, w: b.bw / 2, h: 16}));
  arrows.forEach(a => taken.push({x: a.ex, y: a.ey, w: 8, h: 8}));
  for (const [i, {pts}] of arrows.entries()) {
    const name = (R.places[ring[i]][3] === 'held' ? 'held ' : '') + ringChannel(ring, i),
      half = name.length * CW / 2 + 3,
      others = arrows.flatMap((a, k) => k === i ? [] : a.pts.map(([x, y]) => ({x, y, w: 1, h: 1}))),
      out = pts[8][0] < w / 2 ? -1 : 1,
      place = (k, aside) => {
        const at = pts[k][0] + out * aside,
          x = Math.max(half, Math.min(w - half, at));
        return {x, y: pts[k][1], w: half, h: 8, off: Math.abs(at - x)}
      },
      // on its arrow, near the middle of that, or else beside it
      free = [0, half + 5].flatMap(aside => [7, 8, 6, 9, 5, 10, 4].map(k => place(k, aside))).find(z =>
        z.off < half && z.y > 8 && z.y < h - 8 && ![...taken, ...others].some(b => meets(z, b)));
    if (!free) return '';
    taken.push(free);
    o.push(
      `<rect x="${free.x-half}" y="${free.y-8}" width="${2*half}" height="15" fill="var(--panel)"/>` +
        `<text class="on" x="${free.x}" y="${free.y+4}" text-anchor="middle">${esc(name)}</text>`
      )
  }
  o.push('</g>');
  for (const b of box) o.push(
    `<g class="ev" data-line="${b.line}">` +
      `<rect x="${b.x-b.bw/2}" y="${b.y-16}" width="${b.bw}" height="32" rx="5" ` +
      `fill="var(--ringbg)" stroke="var(--ring)"/>` +
      `<text x="${b.x}" y="${b.y-2}" text-anchor="middle" style="font-weight:600">${esc(b.t)}</text>` +
      `<text class="tk" style="font-size:9px" x="${b.x}" y="${b.y+10}" text-anchor="middle">line ${b.line}</text>` +
      `</g>`
    );
  return o.join('') + '</svg>'
}
let vals0 = values(null);

function valuesPanel() {
  const i = focus(),
    e = i < 0 ? null : E[i],
    set = vals0.map((v, k) => [k, v]).filter(([k, v]) => v[1] >= 0 || e && (e.w === k || e.reads.includes(k)) || R
      .variables.length <= 12),
    rest = R.variables.length - set.length,
    most = lengths => lengths.reduce((a, b) => Math.max(a, b), 0) * 7.7,
    shown = set.slice(0, 200),
    // a row has its name in a line of its own where all three are too wide for the panel
    tall = most(shown.map(([k]) => R.variables[k][0].length)) + most(shown.map(([, v]) => String(v[0]).length)) +
    24 + Math.max(70, e && e.w >= 0 ? most([e.val.length, String(vals0[e.w][0]).length]) : 0) > 372;
  $('vals').hidden = !R.variables.length;
  $('vals').innerHTML = `<h2>${e?'Values right after its causes':'Values now'}</h2>` +
    `<table${tall?' class="tall"':''}>` + shown.map(
    ([k, v]) =>
    `<tr${e&&e.w===k?' style="font-weight:600"':''}>` +
      `<td class="m name">${R.variables[k][0]}<td class="m">${v[0]}${e&&e.w===k?` → ${e.val}`:''}` +
      `<td>${e&&e.w===k?v[0]+' ':''}` +
      (v[1] >= 0 ? 'by ' + link(v[1], e ? 'cp' : '') : '<span class="soft">from the start</span>') +
      (e && e.w === k ? `, ${e.val} by this event` : '') +
      (R.variables[k][2]?' <span style="color:var(--race)">shared</span>':'')
    ).join('') + '</table>' + (rest ? `<div class="soft">and ${rest} more, 0 from the start</div>` : '')
}
const WORDS = new RegExp('\\b(arbitrate|and|as|begin|bits|case|channel|continue|else|end|enumeration|halt|if|input|' +
  'is|loop|not|of|or|output|procedure|select|shared|sync|then|type|variable|while|xor)\\b', 'g');

function sourceText() {
  let deep = 0;
  const lines = R.source.split('\n');
  if (lines.at(-1) === '') lines.pop();
  $('src').innerHTML = lines.map((s, k) => {
    let o = '';
    while (s) {
      if (deep) {
        const m = s.match(/^[^]*?(\(--|--\))/);
        if (!m) {
          o += `<em>${esc(s)}</em>`;
          break
        }
        deep += m[1] === '(--' ? 1 : -1;
        o += `<em>${esc(m[0])}</em>`;
        s = s.slice(m[0].length)
      } else {
        const m = s.match(/\(--|--/);
        if (m && m[0] === '(--') {
          o += esc(s.slice(0, m.index)).replace(WORDS, '<b>$1</b>') + '<em>(--</em>';
          deep = 1;
          s = s.slice(m.index + 3)
        } else if (m) {
          o += esc(s.slice(0, m.index)).replace(WORDS, '<b>$1</b>') + `<em>${esc(s.slice(m.index))}</em>`;
          break
        } else {
          o += esc(s).replace(WORDS, '<b>$1</b>');
          break
        }
      }
    }
    return `<div data-l="${k+1}"><i data-find="${k+1}" title="the events of this line">${k+1}</i><u></u>${o}</div>`
  }).join('')
}

function sourceMarks(scroll) {
  const i = focus(),
    e = i < 0 ? null : E[i],
    past = new Set(),
    next = new Set(),
    rd = new Set(),
    wt = new Set();
  if (e)
    for (const x of E) {
      const s = st[x.i];
      if (s === 1) {
        past.add(x.la);
        past.add(x.lb)
      } else if (s === 2) {
        next.add(x.la);
        next.add(x.lb)
      }
    }
  else {
    R.ready.forEach(r => {
      rd.add(r[3]);
      rd.add(r[4])
    });
    R.places.forEach(p => p[5] || wt.add(p[2]))
  }
  for (const d of $('src').children) {
    const n = +d.dataset.l;
    d.className = e && n === e.line ? 'at' : e && (n === e.la || n === e.lb) ? 'by' : '';
    d.children[1].innerHTML = e ? (past.has(n) ? '<span style="color:var(--past)">●</span>' : '') + (next.has(n) ?
        '<span style="color:var(--next)">○</span>' : '') : rd.has(n) ? '<span class="rd">▶</span>' : wt.has(n) ?
      `<span class="${R.rings.some(r=>r.some(p=>R.places[p][2]===n))?'rg':'soft'}">■</span>` : ''
  }
  if (e) {
    if (scroll) goLine(e.line || e.la || e.lb)
  } else {
    const n = R.rings.length ? R.places[R.rings[0][0]][2] : [...rd, ...wt].find(n => n);
    if (n) goLine(n)
  }
}

function goLine(n) {
  const d = $('src').children[n - 1];
  if (d) $('src').scrollTop = d.offsetTop - $('src').offsetTop - $('src').clientHeight * .4
}
// ---- choosing
function refocus(scroll) {
  const i = focus();
  st.fill(0);
  if (i >= 0) {
    const p = cone(i, e => e.from),
      f = cone(i, e => e.to);
    for (let k = 0; k < N; k++) st[k] = k === i ? 3 : p[k] ? 1 : f[k] ? 2 : 4;
    vals0 = values(p)
  } else vals0 = values(null);
  card();
  valuesPanel();
  sourceMarks(scroll);
  mapDraw();
  draw();
  legend()
}

function legend(t) {
  $('bar').innerHTML = t || (focus() >= 0 ?
    `<span><span class="sw" style="background:var(--past)"></span>causes</span><span>` +
      `<span class="sw" style="background:var(--self);outline:1px solid var(--ink)"></span>this event</span><span>` +
      `<span class="sw next"></span><span class="dashes"></span><i>consequences</i>: what roll takes</span><span>` +
      `<span class="sw" style="background:var(--faint)"></span>independent: stays</span><span>Esc: back</span>` :
    `<span>●—▸ rendezvous, to the receiver</span><span>■ assignment</span><span>○ turn ◇ test</span>` +
      `<span>` +
      `<span class="sw" style="background:var(--bar);outline:1px solid var(--barline)"></span>enclosed</span>` +
      `<span>┈ the lane waits</span>` +
      (R.races.length?'<span style="color:var(--race)">╌ order by a shared variable</span>':'') +
      `<span>click an event, or press ↓; ? for keys</span>`
    )
}

function select(i, scroll) {
  sel = i;
  hover = -1;
  if (i >= 0) {
    const e = E[i];
    if (hid[i]) {
      if (e.quiet && !quiet) quiet = true;
      if (hid[i]) closed.clear();
      $('bq').setAttribute('aria-pressed', quiet);
      layout()
    }
    if (lane < 0 || lane !== e.a && lane !== e.b) lane = e.lane;
    const y = Y[i],
      x = X[colOf[lane]],
      hh = view.clientHeight;
    if (scroll !== false) {
      if (y < view.scrollTop + headH + 40 || y > view.scrollTop + hh - 40) view.scrollTop = y - hh * .45;
      if (x < view.scrollLeft + 60 || x > view.scrollLeft + view.clientWidth - 120) view.scrollLeft = x - view
        .clientWidth * .4
    }
  }
  write();
  refocus(true)
}

function write() {
  try {
    history.replaceState(null, '', sel >= 0 ? '#e' + E[sel].t : location.pathname + location.search)
  } catch (_) {}
}

function search(s) {
  find = s;
  hits = null;
  if (s) {
    hits = new Uint8Array(N);
    const m = s.match(/^line (\d+)$/),
      ticket = s.match(/^#?(\d+)$/),
      low = s.toLowerCase(),
      texts = e => [e.text, label(e).join(''), e.w >= 0 ? R.variables[e.w][0] : ''],
      has = e => texts(e).some(t => t.toLowerCase().includes(low));
    for (const e of E)
      if (m ? e.la === +m[1] || e.lb === +m[1] : ticket && e.t === +ticket[1] || has(e)) hits[e.i] = 1;
    const n = found().length;
    legend(`<b>${n}</b> event${n===1?'':'s'} with “${esc(s)}”` + (n ? '; Enter goes to the next' : ''))
  } else legend();
  draw()
}

// the events that were found and can be shown
const found = () => hits ? E.filter(e => hits[e.i] && !(hid[e.i] && !quiet && e.quiet)).map(e => e.i) : [];

function nextHit() {
  const all = found(),
    at = Math.max(0, all.findIndex(i => i > sel));
  if (!all.length) return;
  select(all[at]);
  legend(`<b>${at+1}</b> of <b>${all.length}</b> with “${esc(find)}”; Enter goes to the next`)
}

function setZoom(z) {
  z = Math.max(0, Math.min(ROWS.length - 1, z));
  if (z === zoom) return;
  const mid = sel >= 0 ? sel : (rowEv[Math.max(0, lowerRow(view.scrollTop + view.clientHeight * .4) - 1)] || [])[0];
  const off = mid === undefined ? 0 : Y[mid] - view.scrollTop;
  zoom = z;
  layout();
  if (mid !== undefined) view.scrollTop = Y[mid] - off;
  draw()
}
const lowerRow = y => {
  let lo = 0,
    hi = rowEv.length;
  while (lo < hi) {
    const m = lo + hi >> 1;
    rowTop[m] < y ? lo = m + 1 : hi = m
  }
  return lo
};

function near(k, y) {
  const a = laneEv[k];
  if (!a.length) return -1;
  const i = lower(a, y);
  return i >= a.length ? a.at(-1) : i && y - Y[a[i - 1]] < Y[a[i]] - y ? a[i - 1] : a[i]
}

function move(d) {
  if (sel < 0) {
    const r = rowEv[lowerRow(view.scrollTop + headH)] || rowEv[0];
    if (r) select(r[0]);
    return
  }
  const a = laneEv[lane],
    p = a.indexOf(sel) + d;
  if (p >= 0 && p < a.length) select(a[p])
}

function side(d) {
  if (sel < 0) return move(1);
  const e = E[sel];
  if (e.b >= 0) {
    const o = lane === e.a ? e.b : e.a;
    if ((colOf[o] - colOf[lane]) * d > 0) {
      lane = o;
      select(sel);
      return
    }
  }
  for (let c = colOf[lane] + d; c >= 0 && c < cols.length; c += d) {
    const k = cols[c].lanes[0],
      i = near(k, Y[sel]);
    if (i >= 0) {
      lane = k;
      select(i);
      return
    }
  }
}
const KEYS = {
  ArrowDown: () => move(1),
  j: () => move(1),
  ArrowUp: () => move(-1),
  k: () => move(-1),
  ArrowRight: () => side(1),
  ArrowLeft: () => side(-1),
  c: () => sel >= 0 && E[sel].from.length && select(Math.max(...E[sel].from)),
  f: () => sel >= 0 && E[sel].to.length && select(E[sel].to[0]),
  ']': () => select(Math.min(N - 1, sel + 1)),
  '[': () => select(Math.max(0, sel - 1)),
  Escape: () => {
    $('help').hidden = true;
    if (find) {
      $('find').value = '';
      search('')
    }
    select(-1)
  },
  '+': () => setZoom(zoom + 1),
  '=': () => setZoom(zoom + 1),
  '-': () => setZoom(zoom - 1),
  q: () => {
    quiet = !quiet;
    $('bq').setAttribute('aria-pressed', quiet);
    layout();
    if (sel >= 0) select(hid[sel] ? -1 : sel);
    else draw()
  },
  d: () => theme(document.documentElement.dataset.theme !== 'dark'),
  '?': () => $('help').hidden = !$('help').hidden,
  '/': () => $('find').focus(),
  n: nextHit,
  Home: () => view.scrollTop = 0,
  End: () => view.scrollTop = 1e9,
  PageUp: () => view.scrollTop -= view.clientHeight - headH - 40,
  PageDown: () => view.scrollTop += view.clientHeight - headH - 40,
  w: () => {
    select(-1);
    view.scrollTop = 1e9;
    draw()
  }
};

// folds the block of a call, or unfolds it
function fold(i) {
  closed.has(i) ? closed.delete(i) : closed.add(i);
  layout();
  if (sel >= 0 && hid[sel]) select(-1);
  paint();
  const block = document.querySelector(`#pic [data-i="${i}"]`);
  if (block) block.focus()
}

function theme(dark) {
  document.documentElement.dataset.theme = dark ? 'dark' : 'light';
  if (now) {
    mapDraw();
    draw()
  }
}
document.addEventListener('keydown', ev => {
  if (ev.target === $('find')) {
    if (ev.key === 'Enter') nextHit();
    else if (ev.key === 'Escape') {
      $('find').blur();
      KEYS.Escape()
    }
    return
  }
  if (ev.ctrlKey || ev.metaKey || ev.altKey) return;
  // the source scrolls by itself, and what has the focus is pressed
  if (ev.target === $('src') && /^(Arrow|Page|Home|End)/.test(ev.key)) return;
  const block = ev.target.closest('[data-i]');
  if (block && ev.key === 'Enter') {
    fold(+block.dataset.i);
    return
  }
  const k = KEYS[ev.key];
  if (k) {
    ev.preventDefault();
    k()
  }
});
document.addEventListener('click', ev => {
  const t = ev.target.closest(
    '[data-e],[data-go],[data-line],[data-find],[data-copy],[data-k],[data-i],[data-w],[data-r]');
  if (!t) {
    const i = pick(ev);
    if (i >= 0) {
      lane = nearest(i, ev);
      select(i, false)
    } else if (ev.target.closest('#view') && sel >= 0) select(-1);
    return
  }
  const d = t.dataset;
  if (t.tagName === 'A') ev.preventDefault();
  if (d.e !== undefined) {
    lane = nearest(+d.e, ev);
    select(+d.e, false)
  } else if (d.go !== undefined) select(+d.go);
  else if (d.line !== undefined) goLine(+d.line);
  else if (d.find !== undefined) {
    $('find').value = 'line ' + d.find;
    search('line ' + d.find)
  } else if (d.k) KEYS[d.k]();
  else if (d.copy !== undefined) put(d.copy, t);
  else if (d.i !== undefined) fold(+d.i);
  else if (d.w !== undefined) {
    if (sel >= 0) select(-1);
    goLine(R.places[+d.w][2])
  } else if (d.r !== undefined) {
    if (sel >= 0) select(-1);
    goLine(R.ready[+d.r][3] || R.ready[+d.r][4])
  }
});
const pick = ev => {
  const g = ev.target.closest('[data-e]');
  if (g) return +g.dataset.e;
  if (ROWS[zoom] >= 8 || !ev.target.closest('#pic')) return -1;
  const b = view.getBoundingClientRect(),
    x = ev.clientX - b.left + view.scrollLeft,
    y = ev.clientY - b.top + view.scrollTop;
  if (ev.clientY - b.top < headH) return -1;
  let best = -1,
    d = 8;
  for (let r = Math.max(0, lowerRow(y) - 2); r < rowEv.length && rowTop[r] < y + 8; r++)
    for (const i of rowEv[r])
      if (x > BL[i] - 4 && x < BL[i] + BW[i] + 4 && Math.abs(Y[i] - y) < d) {
        d = Math.abs(Y[i] - y);
        best = i
      } return best
};
const nearest = (i, ev) => {
  const e = E[i];
  if (e.b < 0) return e.a;
  const x = ev.clientX - view.getBoundingClientRect().left + view.scrollLeft;
  return Math.abs(X[colOf[e.a]] - x) < Math.abs(X[colOf[e.b]] - x) ? e.a : e.b
};

function put(s, b) {
  const ok = () => {
    const was = b.textContent;
    b.textContent = 'copied';
    setTimeout(() => b.textContent = was, 900)
  };
  if (navigator.clipboard) navigator.clipboard.writeText(s).then(ok, old);
  else old();

  function old() {
    const t = document.createElement('textarea');
    t.value = s;
    document.body.append(t);
    t.select();
    document.execCommand('copy');
    t.remove();
    ok()
  }
}
let wait = 0;
$('pic').addEventListener('mousemove', ev => {
  const i = pick(ev);
  if (i === hover || sel >= 0) {
    if (i >= 0) legend(`<span class="m">#${E[i].t} ${esc(E[i].text)}</span>`);
    return
  }
  clearTimeout(wait);
  wait = setTimeout(() => {
    if (sel < 0) {
      hover = i;
      refocus(true)
    }
  }, i < 0 ? 250 : 120)
});
$('pic').addEventListener('mouseleave', () => {
  clearTimeout(wait);
  if (hover >= 0) {
    hover = -1;
    refocus(false)
  }
});
$('find').addEventListener('input', ev => search(ev.target.value.trim()));
view.addEventListener('scroll', draw);
addEventListener('resize', () => {
  layout();
  draw()
});
view.addEventListener('wheel', ev => {
  if (ev.ctrlKey) {
    ev.preventDefault();
    setZoom(zoom + (ev.deltaY < 0 ? 1 : -1))
  }
}, {
  passive: false
}); {
  const go = ev => {
    view.scrollTop = (ev.clientY - $('map').getBoundingClientRect().top) / $('map').height * now.end - view
      .clientHeight / 2
  };
  $('map').addEventListener('pointerdown', ev => {
    $('map').setPointerCapture(ev.pointerId);
    go(ev)
  });
  $('map').addEventListener('pointermove', ev => {
    if (ev.buttons) go(ev)
  })
}
// ---- printing: sheets of the whole run, or of what is in sight where it is long
addEventListener('beforeprint', () => {
  const wide = Math.max(now.wide, view.clientWidth),
    sheet = wide * 1.25,
    whole = now.end < sheet * 30,
    from = whole ? 0 : view.scrollTop,
    to = whole ? now.end : view.scrollTop + view.clientHeight,
    o = [];
  if (!whole) o.push(`<p><b>Only what was in sight is printed:</b> ${inSight(from + headH, to)}. ` +
    'The whole run takes more than 30 sheets.</p>');
  for (let y = from; y < to;) {
    // a sheet ends above a row, if it has one that is whole
    const most = y + sheet,
      above = rowTop[Math.max(0, lowerRow(most + 1) - 1)],
      ends = most >= to + 10 ? to + 10 : above > y + headH + 20 ? above : most;
    o.push(`<svg viewBox="0 0 ${wide} ${ends-y}">${picture(0,y,wide,ends-y)}</svg>`);
    y = ends >= to + 10 ? to : ends - headH
  }
  $('sheets').innerHTML = o.join('')
});
// the rows between two heights
function inSight(from, to) {
  const last = rowEv.length - 1,
    first = Math.max(0, Math.min(last, lowerRow(from + 1) - 1));
  return `row ${first} to ${Math.max(first, Math.min(last, lowerRow(to) - 1))} of 0 to ${last}`
}
addEventListener('afterprint', () => $('sheets').innerHTML = '');
// ---- start
{
  const q = new Set(location.hash.slice(1).split('&'));
  theme(q.has('dark') || !q.has('light') && matchMedia('(prefers-color-scheme:dark)').matches);
  const base = R.files[0].split('/').at(-1).replace(/\.balsa$/, '');
  $('title').textContent = base || 'a run';
  document.title = (base || 'balsadbg') + ': picture of a run';
  const ring = R.rings.length,
    s = $('state');
  s.textContent = [...ring ? ['deadlock'] : [], ...R.ready.length ? [R.ready.length + ' ready'] : []].join(', ') ||
    R.progress;
  s.className = 'chip' + (ring ? ' ring' : R.ready.length ? ' go' : '');
  const depth = E.reduce((m, e) => Math.max(m, e.depth), -1) + 1;
  $('sub').textContent = `${N} event${N===1?'':'s'}, depth ${depth}, ${L.length} lane${L.length===1?'':'s'}` +
    ` · ${R.files[2]}`;
  const word = f => /^[\w./+:@%-]+$/.test(f) ? f : `'${f.replaceAll("'", "'\\''")}'`;
  $('again').textContent = 'balsadbg shell ' + R.files.map(word).join(' ');
  for (const w of q) {
    if (w === 'quiet=0') quiet = false;
    if (w === 'quiet=1') quiet = true;
    const z = w.match(/^z=(\d)$/);
    if (z) zoom = +z[1];
    const f = w.match(/^fold=(\d+)$/);
    if (f) closed.add(+f[1])
  }
  $('bq').setAttribute('aria-pressed', quiet);
  sourceText();
  layout();
  const linked = t => {
    const i = E.findIndex(x => String(x.t) === t);
    select(i);
    if (i < 0) $('card').insertAdjacentHTML('afterbegin', `<div class="rg"><b>This run has no event ${esc(t)}.</b> ` +
      (N ? `Its events are #${E[0].t} to #${E.reduce((m, x) => Math.max(m, x.t), 0)}.` : 'It has none.') + '</div>')
  };
  const e = [...q].map(w => w.match(/^e(.+)$/)).find(Boolean);
  if (e) linked(e[1]);
  else refocus(false);
  if (q.has('now')) KEYS.w();
  paint();
  addEventListener('hashchange', () => {
    const m = location.hash.match(/^#e([^&]+)/);
    if (m) linked(m[1])
  })
}
</script></body></html>
"##;
