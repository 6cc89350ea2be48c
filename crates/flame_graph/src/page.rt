//! The fixed parts of the document: its style, and its controls with the script that zooms and searches. All else is there without the
//! script too.

/// The style, and the ground of the page.
pub(crate) const STYLE: &[u8] = br#"<style>
svg { background: #fbfaf8; }
text { fill: #1d1b19; font: 12px ui-monospace, SFMono-Regular, Menlo, Consolas, 'DejaVu Sans Mono', 'Liberation Mono', monospace; }
.title, .note, .bar { font-family: system-ui, 'Segoe UI', Roboto, 'Helvetica Neue', 'DejaVu Sans', sans-serif; }
.title { font-size: 19px; font-weight: 600; }
.note { font-size: 13px; fill: #5b5650; }
.page { fill: #fbfaf8; }
.line { fill: #d9d4cc; }
.box { cursor: pointer; outline: none; }
.box text { pointer-events: none; }
.box:hover rect, .box:focus rect { stroke: #1d1b19; stroke-width: 2.5px; }
.wide { opacity: 0.6; }
.found rect { fill: #7fb2f0; }
.bar { display: flex; gap: 8px; align-items: center; font-size: 13px; color: #1d1b19; }
.bar input, .bar button { box-sizing: border-box; height: 28px; padding: 0 10px; font: inherit; color: inherit; background: #ffffff; border: 1px solid #a49c90; border-radius: 6px; }
.bar input { flex: 0 1 320px; min-width: 120px; }
.bar button { cursor: pointer; white-space: nowrap; }
.bar button:disabled { color: #8d867b; border-color: #d9d4cc; cursor: default; }
.bar input:focus-visible, .bar button:focus-visible { outline: 2px solid #1c63b7; outline-offset: 1px; }
.bar span { color: #5b5650; white-space: nowrap; }
#bar { display: none; }
.live #bar { display: inline; }
.c0 { fill: #f6cfa5; }
.c1 { fill: #f9dba6; }
.c2 { fill: #f3c49b; }
.c3 { fill: #f7d08f; }
.c4 { fill: #efbf94; }
.c5 { fill: #fae0b0; }
.c6 { fill: #f2b98c; }
.c7 { fill: #f5c67e; }
.c8 { fill: #f8d8b8; }
.c9 { fill: #eec7a2; }
.c10 { fill: #f4ba7c; }
.c11 { fill: #f9cf9f; }
.c12 { fill: #eab58d; }
.c13 { fill: #f1d297; }
.c14 { fill: #f6bf9b; }
.c15 { fill: #fbd98c; }
.c16 { fill: #edc98a; }
.c17 { fill: #f3b49a; }
.c18 { fill: #f7c98b; }
.c19 { fill: #efd3a9; }
.c20 { fill: #f0ac84; }
.c21 { fill: #f5d9a0; }
.c22 { fill: #f8c4a6; }
.c23 { fill: #ecbb78; }
.c24 { fill: #e3ded6; }
</style>
<rect class='page' width='100%' height='100%'/>
"#;

/// What follows the note: the line of details, the controls and the script.
pub(crate) const SCRIPT: &[u8] =
    br#"</text><text id='details' x='1%' y='106'>Click a box to zoom in. Keys: arrows move, Enter zooms in, Escape zooms out, / searches.</text><rect class='line' y='114' width='100%' height='1'/><foreignObject id='bar' x='1%' y='58' width='98%' height='34'><div xmlns='http://www.w3.org/1999/xhtml' class='bar'><input id='search' type='search' placeholder='Search names' aria-label='Search names'/><button id='reset' type='button'>Reset zoom</button><span id='matched' role='status'></span></div></foreignObject></g>
<script><![CDATA[
(() => {
  const graph = document.documentElement, frames = document.getElementById('frames');
  const boxes = Array.from(frames.getElementsByClassName('box'));
  const details = document.getElementById('details'), note = details.textContent;
  const search = document.getElementById('search'), matched = document.getElementById('matched');
  const reset = document.getElementById('reset'), head = document.getElementById('head');
  const parts = boxes.map(box => {
    const title = box.firstChild.textContent;
    return { box, title, label: box.lastChild, name: box.lastChild.textContent, start: Number(box.dataset.start),
      width: Number(box.dataset.width), row: Number(box.getAttribute('y')), at: 0, size: 0 };
  });
  const total = parts[0].width || 1, up = graph.classList.contains('flame') ? -1 : 1;
  let zoomed = 0, current = 0, letter = 7.3;

  const inside = (part, other) => other.start <= part.start && part.start + part.width <= other.start + other.width;
  const above = (part, other) => 0 < (part.row - other.row) * up;
  function fit() {
    const whole = graph.clientWidth * 0.98 / 100;
    for (const part of parts) {
      if (!part.size) continue;
      const room = Math.floor((part.size * whole - 7) / letter), name = part.name;
      part.label.textContent = name.length <= room ? name : room < 4 ? '' : name.slice(0, room - 2) + '..';
    }
  }
  function zoom(index) {
    const to = parts[zoomed = index], scale = 100 / (to.width || 1);
    for (const part of parts) {
      const shown = part === to || (above(part, to) ? inside(part, to) : above(to, part) && inside(to, part));
      const wide = shown && above(to, part);
      part.at = wide ? 0 : (part.start - to.start) * scale;
      part.size = shown ? wide ? 100 : part.width * scale : 0;
      part.box.style.display = shown ? '' : 'none';
      part.box.classList.toggle('wide', wide);
      if (shown) {
        part.box.setAttribute('x', part.at + '%');
        part.box.setAttribute('width', part.size + '%');
      }
    }
    reset.disabled = index === 0;
    fit();
  }
  function find(text) {
    let test = null, end = 0, sum = 0;
    try { test = text && new RegExp(text, 'i'); } catch { const low = text.toLowerCase(); test = { test: name => name.toLowerCase().includes(low) }; }
    parts.forEach((part, index) => {
      const found = Boolean(test) && index > 0 && test.test(part.name);
      part.box.classList.toggle('found', found);
      if (found && end <= part.start) { sum += part.width; end = part.start + part.width; }
    });
    matched.textContent = test ? (100 * sum / total).toFixed(2) + '% matched' : '';
  }
  function show(part) { details.textContent = part ? part.title.replace(/\d{4,}(?= )/, digits => Number(digits).toLocaleString('en')) : note; }
  function focus(index) {
    parts[current].box.setAttribute('tabindex', -1);
    parts[current = index].box.setAttribute('tabindex', 0);
    parts[index].box.focus();
  }
  function next(key) {
    const part = parts[current], seen = index => parts[index].size > 0;
    const range = Array.from(parts.keys());
    if (key === 'ArrowUp' || key === 'ArrowDown') {
      const side = (key === 'ArrowDown' ? 1 : -1) * 18;
      return range.find(i => seen(i) && parts[i].row === part.row + side && (inside(parts[i], part) || inside(part, parts[i])));
    }
    const row = range.filter(i => seen(i) && parts[i].row === part.row), at = row.indexOf(current);
    return row[key === 'ArrowRight' ? at + 1 : at - 1];
  }
  const index_of = event => { const box = event.target.closest('.box'); return box ? boxes.indexOf(box) : -1; };
  frames.addEventListener('click', event => { const index = index_of(event); if (0 <= index) { zoom(index); focus(index); } });
  frames.addEventListener('mouseover', event => show(parts[index_of(event)]));
  frames.addEventListener('mouseleave', () => show(null));
  frames.addEventListener('focusin', event => show(parts[index_of(event)]));
  frames.addEventListener('keydown', event => {
    if (event.key.startsWith('Arrow')) { const to = next(event.key); if (to !== undefined) focus(to); event.preventDefault(); }
    if (event.key === 'Enter' || event.key === ' ') { zoom(current); event.preventDefault(); }
  });
  document.addEventListener('keydown', event => {
    if (event.key === 'Escape') { search.value = ''; find(''); zoom(0); }
    if (event.key === '/' && event.target !== search) { search.focus(); event.preventDefault(); }
  });
  search.addEventListener('input', () => find(search.value));
  reset.addEventListener('click', () => { zoom(0); focus(0); });
  window.addEventListener('scroll', () => head.setAttribute('transform', 'translate(0 ' + window.scrollY + ')'));
  window.addEventListener('resize', fit);
  // Names are cut before boxes are laid out.
  frames.style.display = 'none';
  letter = details.getComputedTextLength() / note.length || letter;
  boxes.forEach((box, index) => box.setAttribute('tabindex', index ? -1 : 0));
  graph.classList.add('live');
  zoom(0);
  frames.style.display = '';
  if (up < 0) window.scrollTo(0, document.documentElement.getBoundingClientRect().height);
})();
]]></script>
</svg>
"#;
