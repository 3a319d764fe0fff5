//! The page, made by tools/page_source.py from page/page.html: change that file, and run the script.

/// One file of HTML, with its style and its script.
pub const PAGE: &str = r##"<!DOCTYPE html>
<!--
The page of mvd: keys and their siblings, lists, and writes, over the HTTP interface of one site.
It is built into the program and loads nothing from elsewhere. The server must send it with this policy:
Content-Security-Policy: default-src 'none'; script-src 'sha256-+G2rsmeBtfcNlT+2Yv/tJfS67U9qMTspi6ul3VNdDWI='; style-src 'sha256-GfXVPu/24CyMDZkrHnm/405USX81HQtD5DIfoaMqPsA='; connect-src 'self'; img-src data:; base-uri 'none'; form-action 'none'; frame-ancestors 'none'; require-trusted-types-for 'script'; trusted-types 'none'
tools/page.py stamp   writes the policy of this file's style and script into this comment.
tools/page.py test    drives the page in a browser, under this policy.
-->
<html lang="en">
<head>
<meta charset="utf-8">
<meta name="viewport" content="width=device-width, initial-scale=1">
<meta name="color-scheme" content="light dark">
<title>mvd</title>
<link rel="icon" href="data:,">
<style>
:root {
  color-scheme: light dark;
  --back: #f6f7f9; --card: #fff; --text: #1b1f24; --quiet: #59626e; --line: #d4d9e0; --field: #8a94a2;
  --link: #0b57b0; --accent: #0b57b0; --on-accent: #fff; --head: #eef1f5;
  --added: #1a6b34; --added-back: #e3f5e8; --removed: #a3262a; --removed-back: #fdebea;
  --other: #7a4b00; --other-back: #fdf2d8; --warn: #7a4b00; --warn-back: #fdf2d8;
  --mono: ui-monospace, "SF Mono", "Cascadia Mono", "DejaVu Sans Mono", Menlo, Consolas, monospace;
}
@media (prefers-color-scheme: dark) {
  :root {
    --back: #12151a; --card: #1a1f26; --text: #e6e9ee; --quiet: #a3adba; --line: #343c47; --field: #6d7887;
    --link: #82b6ff; --accent: #82b6ff; --on-accent: #0c1420; --head: #222932;
    --added: #7fd79a; --added-back: #173322; --removed: #ff9c98; --removed-back: #40201f;
    --other: #f0c36b; --other-back: #382c12; --warn: #f0c36b; --warn-back: #382c12;
  }
}
* { box-sizing: border-box; }
body { margin: 0; background: var(--back); color: var(--text); font: 16px/1.5 system-ui, sans-serif; }
h1, h2, h3 { line-height: 1.25; margin: 0; }
h1 { font-size: 1.25rem; letter-spacing: .01em; }
h2 { font-size: 1.125rem; margin-bottom: .75rem; }
h3 { font-size: 1rem; overflow-wrap: anywhere; }
p { margin: .5rem 0; }
a { color: var(--link); }
code, pre, textarea, .mono { font-family: var(--mono); font-size: .875rem; overflow-wrap: anywhere; }
:focus-visible { outline: 3px solid var(--accent); outline-offset: 2px; border-radius: 4px; }
[hidden] { display: none !important; }
.skip { position: absolute; left: -100rem; }
.skip:focus { left: 1rem; top: .5rem; background: var(--card); padding: .25rem .75rem; z-index: 1; }
.quiet { color: var(--quiet); font-size: .875rem; }
.unseen { position: absolute; width: 1px; height: 1px; overflow: hidden; clip-path: inset(50%); white-space: nowrap; }
header { display: flex; flex-wrap: wrap; gap: .25rem 1.25rem; align-items: baseline; padding: .875rem 1.25rem;
  background: var(--card); border-bottom: 1px solid var(--line); }
header p { margin: 0; }
main { display: grid; grid-template-columns: minmax(0, 1fr) minmax(20rem, 27rem); gap: 1.25rem; padding: 1.25rem;
  max-width: 96rem; margin: 0 auto; align-items: start; }
section { background: var(--card); border: 1px solid var(--line); border-radius: 8px; padding: 1.25rem; min-width: 0; }
.fields { display: flex; flex-wrap: wrap; gap: .75rem; align-items: end; }
.fields > label { flex: 1 1 10rem; }
label { font-size: .875rem; color: var(--quiet); }
label > input:not([type=radio], [type=checkbox]) { display: block; width: 100%; margin-top: .25rem; }
label.choice { display: inline-flex; align-items: center; gap: .4rem; color: var(--text); }
input, textarea { font: inherit; color: var(--text); background: var(--back); border: 1px solid var(--field);
  border-radius: 5px; padding: .4rem .6rem; min-height: 2.5rem; }
input[type=radio], input[type=checkbox] { min-height: 0; width: 1.1rem; height: 1.1rem; margin: 0; flex: none;
  accent-color: var(--accent); }
input:not([type=radio], [type=checkbox]), textarea { font-family: var(--mono); font-size: .9375rem; }
textarea { display: block; width: 100%; min-height: 14rem; margin: .25rem 0; resize: vertical; tab-size: 2; line-height: 1.5; }
[aria-invalid=true] { border-color: var(--removed); border-width: 2px; }
fieldset { border: 0; padding: 0; margin: 0 0 .75rem; display: flex; flex-wrap: wrap; gap: .25rem 1.25rem; }
legend { padding: 0; font-size: .875rem; color: var(--quiet); margin-bottom: .25rem; }
button { font: inherit; font-size: .9375rem; color: var(--text); background: var(--head); border: 1px solid var(--field);
  border-radius: 5px; padding: .4rem .875rem; min-height: 2.5rem; cursor: pointer; }
button:hover:enabled { border-color: var(--accent); }
button.main { background: var(--accent); border-color: var(--accent); color: var(--on-accent); }
button.danger { color: var(--removed); background: none; border-color: var(--removed); }
button:disabled { opacity: .45; cursor: default; }
.buttons { display: flex; flex-wrap: wrap; gap: .5rem; margin-top: .75rem; }
.outcome:not(:empty) { border-left: 4px solid var(--line); background: var(--head); padding: .625rem .875rem;
  border-radius: 4px; margin: 1rem 0 0; overflow-wrap: anywhere; }
.outcome.good { border-color: var(--added); background: var(--added-back); }
.outcome.warn { border-color: var(--warn); background: var(--warn-back); }
.outcome.bad { border-color: var(--removed); background: var(--removed-back); }
#state { margin-top: 1.25rem; }
#state-title { width: fit-content; }
.facts { display: flex; flex-wrap: wrap; gap: .25rem 1.25rem; align-items: center; margin: .5rem 0 .75rem; }
.facts p { margin: 0; }
.scroll { position: relative; overflow-x: auto; border: 1px solid var(--line); border-radius: 6px; }
table { border-collapse: collapse; width: 100%; }
th, td { text-align: left; vertical-align: top; padding: .4rem .7rem; border-bottom: 1px solid var(--line); }
tbody tr:last-child > * { border-bottom: 0; }
thead th { background: var(--head); font-size: .875rem; }
tbody th { font-weight: 500; color: var(--quiet); }
.siblings { table-layout: fixed; min-width: calc(9rem + var(--columns) * 11rem); }
.siblings .name { width: 11rem; }
.siblings td, .siblings thead th + th { border-left: 1px solid var(--line); }
.siblings thead .buttons { margin-top: .4rem; }
.siblings thead button { min-height: 2.125rem; padding: .2rem .7rem; font-size: .875rem; }
.siblings thead label { font-weight: 400; margin-top: .25rem; }
.siblings .dot { font-weight: 600; display: flex; flex-wrap: wrap; gap: .15rem .5rem; align-items: center; }
.value { white-space: pre-wrap; }
.mark { display: block; font: 600 .75rem/1.4 system-ui, sans-serif; margin-bottom: .1rem; }
.added { background: var(--added-back); } .added .mark { color: var(--added); }
.removed { background: var(--removed-back); } .removed .mark { color: var(--removed); }
.other { background: var(--other-back); } .other .mark { color: var(--other); }
tr.differs > th { color: var(--text); font-weight: 650; }
.tag { font-size: .75rem; font-weight: 600; border-radius: 1rem; padding: 0 .55rem; border: 1px solid currentcolor; }
.tag.new { color: var(--warn); } .tag.mine { color: var(--added); }
td.none { color: var(--quiet); }
.siblings td.none, .siblings tbody th { font-size: .875rem; }
.siblings .take { display: block; min-height: 1.75rem; padding: 0 .5rem; margin-top: .25rem; font-size: .8125rem; }
header .buttons { margin: 0; }
#elsewhere .buttons, #next-row { margin-top: .5rem; }
pre { margin: .4rem 0 0; white-space: pre-wrap; }
summary { cursor: pointer; font-size: .875rem; color: var(--link); }
form#editor { margin-top: 1.5rem; }
#check { min-height: 1.5em; margin: .25rem 0 0; }
#check.bad { color: var(--removed); } #check.good { color: var(--added); }
#list .scroll { margin-top: .75rem; }
.list td, .list th { padding: .35rem .6rem; overflow-wrap: anywhere; }
.list .number { text-align: right; white-space: nowrap; font-variant-numeric: tabular-nums; }
.list .several { color: var(--warn); background: var(--warn-back); font-weight: 650; }
dialog { background: var(--card); color: var(--text); border: 1px solid var(--field); border-radius: 8px; padding: 1.25rem;
  max-width: min(30rem, 92vw); }
dialog::backdrop { background: rgb(0 0 0 / .5); }
@media (max-width: 64rem) { main { grid-template-columns: minmax(0, 1fr); } }
@media (max-width: 40rem) {
  main { padding: .625rem; gap: .625rem; }
  section { padding: .875rem; }
  header { padding: .75rem .875rem; }
  .siblings, .siblings thead, .siblings tbody { display: block; width: auto; min-width: calc(var(--columns) * 8.75rem); }
  .siblings tr { display: grid; grid-template-columns: repeat(var(--columns), minmax(8.75rem, 1fr)); }
  .siblings thead .name { display: none; }
  .siblings tbody th { grid-column: 1 / -1; width: auto; background: var(--head); border-bottom: 0; padding-block: .2rem; }
  .siblings td:first-of-type, .siblings thead th:nth-child(2) { border-left: 0; }
  .siblings th, .siblings td { padding-inline: .55rem; }
  .list td:first-child, .list th:first-child { min-width: 7rem; }
}
</style>
</head>
<body>
<a class="skip" href="#state" id="skip">To the key</a>
<header>
  <h1>mvd</h1>
  <p class="quiet" id="site">Asking the site …</p>
  <div class="buttons" id="work-row" hidden><button type="button" id="work"></button></div>
</header>
<main>
  <section aria-labelledby="key-title">
    <h2 id="key-title">Key</h2>
    <form id="look" class="fields">
      <label>Key to look up <input id="key" required autocomplete="off" autocapitalize="off" spellcheck="false"></label>
      <button class="main">Look up</button>
    </form>
    <p class="outcome" id="outcome" role="status" aria-live="polite"></p>
    <div class="buttons" id="next-row" hidden><button type="button" class="main" id="next">Next in conflict</button></div>
    <div class="outcome warn" id="elsewhere" role="status" aria-live="polite" hidden><span id="elsewhere-text"></span>
      <div class="buttons"><button type="button" id="again">Show it as it is now</button></div></div>
    <div id="state" hidden>
      <h3 id="state-title" tabindex="-1"></h3>
      <div class="facts">
        <p class="quiet">Context <code id="context"></code></p>
        <p class="quiet" id="differences"></p>
        <label class="choice" id="only-label"><input type="checkbox" id="only"> Only what differs</label>
      </div>
      <div class="scroll" id="siblings" role="region" aria-label="Siblings side by side" tabindex="0"></div>
      <form id="editor" novalidate>
        <h3 id="editor-title"></h3>
        <label for="document">Document (JSON)</label>
        <textarea id="document" aria-describedby="check" autocapitalize="off" autocomplete="off" spellcheck="false"></textarea>
        <p class="quiet" id="check" aria-live="polite"></p>
        <div class="buttons">
          <button class="main" id="write">Write</button>
          <button type="button" class="danger" id="delete">Delete the key</button>
        </div>
        <p class="quiet" id="meaning"></p>
      </form>
    </div>
  </section>

  <section aria-labelledby="list-title" id="list">
    <h2 id="list-title">List</h2>
    <fieldset id="kind">
      <legend>What to list</legend>
      <label class="choice"><input type="radio" name="kind" value="keys" checked> Keys</label>
      <label class="choice"><input type="radio" name="kind" value="conflicts"> In conflict</label>
      <label class="choice"><input type="radio" name="kind" value="index"> An index</label>
      <label class="choice"><input type="radio" name="kind" value="view"> A view</label>
    </fieldset>
    <form id="keys-form" class="fields">
      <label>Keys that begin with <input id="prefix" maxlength="128" autocomplete="off" autocapitalize="off" spellcheck="false"></label>
      <label class="choice"><input type="checkbox" id="live" checked> Without deleted keys</label>
      <button class="main">List</button>
    </form>
    <form id="conflicts-form" class="fields" hidden>
      <button class="main">List</button>
    </form>
    <form id="index-form" class="fields" hidden>
      <label>Field <input id="field" required autocomplete="off" autocapitalize="off" spellcheck="false"></label>
      <label>Is (a JSON term, as "Rome" or 3) <input id="is" autocomplete="off" spellcheck="false"></label>
      <label>or from <input id="from" autocomplete="off" spellcheck="false"></label>
      <label>to <input id="to" autocomplete="off" spellcheck="false"></label>
      <button class="main">List</button>
    </form>
    <form id="view-form" class="fields" hidden>
      <label>View <input id="view" required autocomplete="off" autocapitalize="off" spellcheck="false"></label>
      <label>Only the row of (a JSON term, or nothing) <input id="row" autocomplete="off" spellcheck="false"></label>
      <button class="main">List</button>
    </form>
    <p class="outcome" id="listed" role="status" aria-live="polite"></p>
    <div class="scroll" id="rows" role="region" aria-label="What is listed" tabindex="0" hidden></div>
    <div class="buttons"><button type="button" id="more" hidden>More</button></div>
  </section>
</main>
<dialog id="sure" aria-labelledby="sure-text">
  <p id="sure-text"></p>
  <div class="buttons">
    <button type="button" id="sure-no" autofocus>Leave it</button>
    <button type="button" class="danger" id="sure-yes">Delete</button>
  </div>
</dialog>
<dialog id="door" aria-labelledby="door-text">
  <form id="token-form" class="fields" method="dialog">
    <p id="door-text">This site wants a token. It is kept for this tab alone.</p>
    <label>Token <input id="token" type="password" required minlength="16" maxlength="256" autocomplete="off"></label>
    <button class="main">Come in</button>
  </form>
</dialog>
<script type="module">
// JSON. Numbers keep their text: a whole number of 64 bits is more than a number of the browser holds.

const DOCUMENT_BYTES = 65536;
const DEPTH = 127;
const LEAST = -(2n ** 63n);
const GREATEST = 2n ** 63n - 1n;

class Whole { constructor(text) { this.text = text; } }

class JsonFault extends Error {
  constructor(words, at) { super(words); this.at = at; }
}

/** Reads a JSON text: objects as Map, numbers as Whole. `twice` gathers names that stand twice in one object. */
function readJson(text, twice = []) {
  let at = 0;
  const fail = (words, where = at) => { throw new JsonFault(words, where); };

  function skipBlanks() { while (at < text.length && ' \t\n\r'.includes(text[at])) at += 1; }

  function take(sign, words) {
    skipBlanks();
    if (text[at] !== sign) fail(words);
    at += 1;
  }

  function readText() {
    const start = at;
    at += 1;
    while (at < text.length && text[at] !== '"') at += text[at] === '\\' ? 2 : 1;
    if (at >= text.length) fail('A text has no closing quote', start);
    at += 1;
    let value;
    try { value = JSON.parse(text.slice(start, at)); } catch { fail('A text has a line end or an unknown escape', start); }
    if (/\p{Surrogate}/u.test(value)) fail('A text has half of a surrogate pair', start);
    return value;
  }

  function readNumber() {
    const found = /^-?(0|[1-9][0-9]*)(\.[0-9]+)?([eE][+-]?[0-9]+)?/.exec(text.slice(at, at + 400));
    if (!found) fail('No JSON value begins here');
    at += found[0].length;
    return new Whole(found[0]);
  }

  function readWord(word, value) {
    if (!text.startsWith(word, at)) fail('No JSON value begins here');
    at += word.length;
    return value;
  }

  function readMembers(depth) {
    const members = new Map();
    at += 1;
    skipBlanks();
    if (text[at] === '}') { at += 1; return members; }
    for (;;) {
      skipBlanks();
      if (text[at] !== '"') fail('A member\'s name in double quotes is missing');
      const name = readText();
      if (members.has(name)) twice.push(name);
      take(':', 'A colon is missing');
      members.set(name, readValue(depth));
      skipBlanks();
      if (text[at] === '}') { at += 1; return members; }
      take(',', 'A comma or } is missing');
    }
  }

  function readItems(depth) {
    const items = [];
    at += 1;
    skipBlanks();
    if (text[at] === ']') { at += 1; return items; }
    for (;;) {
      items.push(readValue(depth));
      skipBlanks();
      if (text[at] === ']') { at += 1; return items; }
      take(',', 'A comma or ] is missing');
    }
  }

  function readValue(depth) {
    skipBlanks();
    if (depth > DEPTH + 8) fail('It is nested too deep');
    if (at >= text.length) fail('The text ends too early');
    switch (text[at]) {
      case '{': return readMembers(depth + 1);
      case '[': return readItems(depth + 1);
      case '"': return readText();
      case 't': return readWord('true', true);
      case 'f': return readWord('false', false);
      case 'n': return readWord('null', null);
      default: return readNumber();
    }
  }

  const value = readValue(0);
  skipBlanks();
  if (at < text.length) fail('Something follows the value');
  return value;
}

/** The order of names by their bytes in UTF-8, which is the order of code points. */
function byBytes(one, other) {
  const [a, b] = [[...one], [...other]];
  for (let i = 0; i < Math.min(a.length, b.length); i += 1) {
    if (a[i] !== b[i]) return a[i].codePointAt(0) - b[i].codePointAt(0);
  }
  return a.length - b.length;
}

function sortedMembers(map) { return [...map].sort(([a], [b]) => byBytes(a, b)); }

/** The compact text, as the site keeps it. */
function compact(value) {
  if (value instanceof Whole) return value.text;
  if (Array.isArray(value)) return `[${value.map(compact).join(',')}]`;
  if (value instanceof Map) {
    return `{${sortedMembers(value).map(([name, member]) => `${JSON.stringify(name)}:${compact(member)}`).join(',')}}`;
  }
  return JSON.stringify(value);
}

/** The text for people: a line for each member and item. */
function spread(value, indent = '') {
  const inner = `${indent}  `;
  const lines = (items, open, close) =>
    items.length === 0 ? open + close : `${open}\n${inner}${items.join(`,\n${inner}`)}\n${indent}${close}`;
  if (Array.isArray(value)) return lines(value.map((item) => spread(item, inner)), '[', ']');
  if (value instanceof Map) {
    return lines(sortedMembers(value).map(([name, member]) => `${JSON.stringify(name)}: ${spread(member, inner)}`), '{', '}');
  }
  return compact(value);
}

function depthOf(value) {
  const below = value instanceof Map ? [...value.values()] : Array.isArray(value) ? value : null;
  return below === null ? 0 : 1 + below.reduce((most, item) => Math.max(most, depthOf(item)), 0);
}

function isWhole(number) {
  if (!/^(0|-?[1-9][0-9]*)$/.test(number.text)) return false;
  const value = BigInt(number.text);
  return LEAST <= value && value <= GREATEST;
}

/** The first number in the value that the site would refuse, or undefined. */
function wrongNumber(value) {
  if (value instanceof Whole) return isWhole(value) ? undefined : value;
  const below = value instanceof Map ? value.values() : Array.isArray(value) ? value : [];
  for (const item of below) {
    const wrong = wrongNumber(item);
    if (wrong) return wrong;
  }
  return undefined;
}

function spot(text, at) {
  const lines = text.slice(0, at).split('\n');
  return `line ${lines.length}, column ${lines.at(-1).length + 1}`;
}

function bytesOf(text) { return new TextEncoder().encode(text).length; }

/** Checks a text as the site would: `{compact}` or `{fault}`, with words for the reader either way. */
function checkDocument(text) {
  const twice = [];
  let value;
  try { value = readJson(text, twice); } catch (fault) {
    if (!(fault instanceof JsonFault)) throw fault;
    return { fault: `No JSON: ${fault.message} (${spot(text, fault.at)}).` };
  }
  if (depthOf(value) > DEPTH) return { fault: `No document: it is nested deeper than ${DEPTH}.` };
  if (!(value instanceof Map)) return { fault: 'No document: the value must be an object, { … }.' };
  const wrong = wrongNumber(value);
  if (wrong) return { fault: `No document: ${wrong.text} is no whole number of 64 bits.` };
  const short = compact(value);
  const size = `${bytesOf(short).toLocaleString('en')} of ${DOCUMENT_BYTES.toLocaleString('en')} bytes`;
  if (bytesOf(short) > DOCUMENT_BYTES) return { fault: `Too long: ${size}.` };
  const note = twice.length === 0 ? '' : ` ${JSON.stringify(twice[0])} stands twice: the last one counts.`;
  return { compact: short, words: `A document, ${size}.${note}` };
}

/** Whether a text is a JSON term: null, true, false, a whole number, or a text of at most 512 bytes. */
function isTerm(text) {
  try {
    const value = readJson(text);
    if (value instanceof Whole) return isWhole(value);
    return typeof value === 'string' ? bytesOf(value) <= 512 : value === null || typeof value === 'boolean';
  } catch { return false; }
}

// The site, over HTTP.

const REFUSALS = {
  1: 'A key has 1 to 128 characters, none of them a space or past ASCII.',
  2: 'The context is not in its one form.',
  3: 'The text is no JSON.',
  4: 'The value is not an object.',
  5: 'A number is no whole number of 64 bits.',
  6: 'The document is longer than 65,536 bytes.',
  7: 'The text is not its own compact text.',
  8: 'This site has no counter left for this key.',
  9: 'The key would have more than its 1,150,000 bytes. Resolve its siblings first.',
  10: 'The site holds as many keys as it may.',
  11: 'Two documents stand under one dot.',
  12: 'This field has no index.',
  13: 'There is no view of this name.',
  14: 'A path has at most 3 digits, 0 to 9 and a to f.',
  15: 'A term is null, true, false, a whole number, or a text in double quotes of at most 512 bytes.',
  20: 'The site has no memory for it now. Try again.',
  21: 'The site could not store it. Its file may keep it all the same: look the key up when it runs again.',
  22: 'The site is broken until it is opened again. The write may have been kept.',
  33: 'The request has not the right form.',
  36: 'As many clients are served as may be. Try again.',
  38: 'The site wants a token, or another one.',
};

// A context longer than this goes in a line of POST /keys: the fields of a request have less room.
const CONTEXT_LETTERS = 8000;

let token = sessionStorage.getItem('mvd-token');

class Refused extends Error {
  constructor(number, name) {
    super(`Refused, ${number} ${name}. ${REFUSALS[number] ?? ''}`.trim());
    this.number = number;
  }
}

class NoAnswer extends Error {}

/** One request. The value is the JSON of the response, or null. Throws Refused, NoAnswer, or an Error in words. */
async function ask(method, path, { context, body } = {}) {
  const headers = {};
  if (token !== null) headers.Authorization = `Bearer ${token}`;
  if (context !== undefined) headers['Mvd-Context'] = context;
  if (body !== undefined) headers['Content-Type'] = 'application/json';
  let response;
  let text;
  try {
    response = await fetch(path, { method, headers, body, cache: 'no-store' });
    text = await response.text();
  } catch { throw new NoAnswer('The site did not answer.'); }
  if (response.status === 401) askForToken();
  let value = null;
  try { value = text === '' ? null : readJson(text); } catch { /* not from the site: told below by its status */ }
  if (value instanceof Map && value.has('refused')) throw new Refused(value.get('refused').text, value.get('name'));
  if (response.ok || (value instanceof Map && value.has('siblings'))) return value;
  throw new Error(`The server answered ${response.status} ${response.statusText}.`);
}

/** A part of a path. A browser resolves `.` and `..` away, however they are spelled. */
function part(name) {
  if (name === '.' || name === '..') throw new Error(`A browser cannot ask for "${name}". Use mvd shell.`);
  return encodeURIComponent(name);
}

function query(given) {
  const present = Object.entries(given).filter(([, value]) => value !== undefined);
  return present.length === 0 ? '' : `?${present.map(([name, value]) => `${name}=${encodeURIComponent(value)}`).join('&')}`;
}

async function readKey(key) {
  const value = await ask('GET', `/keys/${part(key)}`);
  const siblings = value.get('siblings').map((one) => ({ dot: one.get('dot'), document: one.get('document') }));
  return { key, context: value.get('context'), siblings };
}

/** A write as one line of POST /keys; without a document it deletes. */
function postLine({ key, context }, document) {
  const parts = [`"key":${JSON.stringify(key)}`, `"context":${JSON.stringify(context)}`, ...(document === undefined ? [] : [`"document":${document}`])];
  return ask('POST', '/keys', { body: `{${parts.join(',')}}\n` });
}

async function putKey(state, body) {
  const { key, context } = state;
  const sent = context.length > CONTEXT_LETTERS ? postLine(state, body) : ask('PUT', `/keys/${part(key)}`, { context, body });
  return (await sent).get('dot');
}

async function deleteKey(state) {
  const { key, context } = state;
  await (context.length > CONTEXT_LETTERS ? postLine(state) : ask('DELETE', `/keys/${part(key)}`, { context }));
}

/** The first keys in conflict, behind a key if one is given. */
async function inConflict(after) {
  return (await ask('GET', `/conflicts${query({ after })}`)).get('keys').map((one) => one.get('key'));
}

// What differs between siblings, field by field.

function isBranch(value) { return value instanceof Map ? value.size > 0 : Array.isArray(value) && value.length > 0; }

function namesIn(values) {
  const names = new Set(values.flatMap((value) => (value instanceof Map ? [...value.keys()] : [])));
  return [...names].sort(byBytes);
}

/** A row for each field with a value in some document: its path, the steps to it, and its text in each document, or undefined. */
function* fieldsOf(values, path = '', steps = []) {
  const texts = values.map((value) => (value === undefined || isBranch(value) ? undefined : compact(value)));
  if (texts.some((text) => text !== undefined)) yield { path: path || '(the document)', steps, texts };
  for (const name of namesIn(values)) {
    const shownName = /^[^\s".[\]]+$/.test(name) ? name : JSON.stringify(name);
    yield* fieldsOf(values.map((value) => (value instanceof Map ? value.get(name) : undefined)),
      path === '' ? shownName : `${path}.${shownName}`, [...steps, name]);
  }
  const length = Math.max(0, ...values.map((value) => (Array.isArray(value) ? value.length : 0)));
  for (let i = 0; i < length; i += 1) {
    yield* fieldsOf(values.map((value) => (Array.isArray(value) ? value[i] : undefined)), `${path}[${i}]`, [...steps, i]);
  }
}

function markOf(text, base) {
  if (text === base) return null;
  if (base === undefined) return 'added';
  return text === undefined ? 'removed' : 'other';
}

/** What stands at these steps, or undefined. */
function valueAt(value, steps) {
  return steps.reduce((of, step) => (of instanceof Map ? of.get(step) : Array.isArray(of) ? of[step] : undefined), value);
}

/** The value with this at these steps; with nothing there where it is undefined. */
function withField(value, [step, ...rest], given) {
  const below = valueAt(value, [step]);
  if (given === undefined && below === undefined) return value;
  const inner = rest.length === 0 ? given : withField(below, rest, given);
  if (typeof step === 'string') {
    const members = new Map(value instanceof Map ? value : []);
    if (inner === undefined) members.delete(step); else members.set(step, inner);
    return members;
  }
  const items = Array.isArray(value) ? [...value] : [];
  if (inner === undefined) items.splice(step, 1); else items[Math.min(step, items.length)] = inner;
  return items;
}

function differs(field) { return field.texts.some((text) => text !== field.texts[0]); }

// Small parts of the page.

const $ = (id) => document.getElementById(id);

function make(tag, attributes = {}, ...children) {
  const node = document.createElement(tag);
  for (const [name, value] of Object.entries(attributes)) node.setAttribute(name, value);
  node.append(...children);
  return node;
}

function button(text, action, attributes = {}) {
  const node = make('button', { type: 'button', ...attributes }, text);
  node.addEventListener('click', action);
  return node;
}

function tell(place, words, tone = '') {
  place.className = `outcome ${tone}`;
  place.textContent = words;
}

function amount(number, one, many = `${one}s`) { return `${Number(number).toLocaleString('en')} ${number === 1 ? one : many}`; }
function listed(dots) { return dots.length < 2 ? dots.join() : `${dots.slice(0, -1).join(', ')} and ${dots.at(-1)}`; }

// The most siblings that stand side by side.
const SHOWN_MOST = 200;

// The key that is shown.

let shown = null;
let lookups = 0;
let busy = false;
// What the editor had before somebody typed.
let begun = '';

function isTyped() { return shown !== null && $('document').value !== begun; }

/** Asks, and gives whether the answer is yes. */
function isSure(words, yes) {
  if ($('sure').open) return Promise.resolve(false);
  $('sure-text').textContent = words;
  $('sure-yes').textContent = yes;
  $('sure').returnValue = '';
  $('sure').showModal();
  return new Promise((done) => {
    $('sure').addEventListener('close', () => done($('sure').returnValue === 'yes'), { once: true });
  });
}

/** Whether what was typed and not written may go. */
async function mayDrop() {
  return !isTyped() || isSure(`What you typed for ${shown.key} is not written.`, 'Drop it');
}

function show(state, { mine, seen } = {}) {
  shown = { ...state, base: 0, mine, seen };
  $('elsewhere').hidden = true;
  $('state').hidden = false;
  $('state-title').textContent = `${state.key}: ${describeCount(state.siblings.length)}`;
  $('context').textContent = state.context;
  $('only').checked = false;
  showSiblings();
  edit(state.siblings.length === 0 ? null : 0);
  $('delete').disabled = state.siblings.length === 0;
}

function describeCount(count) {
  if (count === 0) return 'no sibling';
  return count > SHOWN_MOST ? `${amount(count, 'sibling')}, of which the first ${SHOWN_MOST} are shown` : amount(count, 'sibling');
}

function showSiblings() {
  const { base } = shown;
  const siblings = shown.siblings.slice(0, SHOWN_MOST);
  const fields = [...fieldsOf(siblings.map((one) => one.document))];
  const different = fields.filter(differs);
  $('only-label').hidden = siblings.length < 2;
  $('differences').hidden = siblings.length < 2;
  $('differences').textContent = describeDifferences(different, fields.length);
  $('siblings').hidden = siblings.length === 0;
  const table = make('table', { class: 'siblings', role: 'table' }, headOf(siblings, base),
    bodyOf($('only').checked ? different : fields, siblings, base));
  table.style.setProperty('--columns', siblings.length);
  $('siblings').replaceChildren(table);
}

/** In words, against the sibling that the others are compared with. */
function describeDifferences(different, all) {
  if (different.length === 0) return `${amount(all, 'field')}, and none differs.`;
  const marks = different.flatMap(({ texts }) => texts.map((text) => markOf(text, texts[shown.base])));
  const count = (mark) => marks.filter((one) => one === mark).length;
  const parts = [[count('added'), 'added'], [count('removed'), 'removed'], [count('other'), count('other') === 1 ? 'other value' : 'other values']]
    .filter(([number]) => number > 0).map(([number, words]) => `${number} ${words}`);
  const verb = different.length === 1 ? 'differs' : 'differ';
  return `${different.length} of ${amount(all, 'field')} ${verb} from ${shown.siblings[shown.base].dot}: ${parts.join(', ')}.`;
}

function headOf(siblings, base) {
  const cells = siblings.map((one, place) => make('th', { role: 'columnheader', scope: 'col' },
    make('span', { class: 'dot' }, `Sibling ${one.dot}`, ...tagsOf(one)),
    ...(siblings.length > 1 ? [baseChoice(one, place, base)] : []),
    make('div', { class: 'buttons' }, ...choicesOf(one, place, siblings.length))));
  return make('thead', { role: 'rowgroup' }, make('tr', { role: 'row' },
    make('th', { class: 'name', role: 'columnheader', scope: 'col' }, 'Field'), ...cells));
}

function tagsOf({ dot }) {
  if (dot === shown.mine) return [make('span', { class: 'tag mine' }, 'yours')];
  return shown.seen && !shown.seen.includes(dot) ? [make('span', { class: 'tag new' }, 'new')] : [];
}

function baseChoice(one, place, base) {
  const input = make('input', { type: 'radio', name: 'base' });
  input.checked = place === base;
  input.addEventListener('change', () => {
    shown.base = place;
    showSiblings();
    $('siblings').querySelectorAll('input[name=base]')[place].focus();
  });
  return make('label', { class: 'choice quiet' }, input, 'compare with', make('span', { class: 'unseen' }, ` ${one.dot}`));
}

function choicesOf(one, place, count) {
  const unlessTyped = (action) => async () => { if (await mayDrop()) action(); };
  const editing = button('Edit', unlessTyped(() => { edit(place); $('document').focus(); }), { 'aria-label': `Edit ${one.dot}` });
  if (count < 2) return [editing];
  return [button('Pick', unlessTyped(() => write(compact(one.document))), { 'aria-label': `Pick ${one.dot}`, class: 'main' }), editing];
}

function bodyOf(fields, siblings, base) {
  const rows = fields.map((field) => make('tr', { role: 'row', ...(differs(field) ? { class: 'differs' } : {}) },
    make('th', { role: 'rowheader', scope: 'row', class: 'mono' }, field.path),
    ...field.texts.map((text, place) => cellOf(text, field.texts[base], takeOf(field, place)))));
  const whole = make('tr', { role: 'row' }, make('th', { role: 'rowheader', scope: 'row' }, 'as JSON'),
    ...siblings.map((one) => make('td', { role: 'cell' }, make('details', {}, make('summary', {}, `${one.dot} as JSON`),
      make('pre', {}, spread(one.document))))));
  return make('tbody', { role: 'rowgroup' }, ...rows, whole);
}

/** The button that takes a field of one sibling into the document in hand, where the siblings differ. */
function takeOf(field, place) {
  if (!differs(field) || field.steps.length === 0) return [];
  const { dot } = shown.siblings[place];
  return [button('Take', () => takeField(field, place), { class: 'take', 'aria-label': `Take ${field.path} of ${dot}` })];
}

function takeField({ path, steps }, place) {
  const { dot, document } = shown.siblings[place];
  let inHand;
  try { inHand = readJson($('document').value); } catch (fault) {
    if (!(fault instanceof JsonFault)) throw fault;
  }
  if (!(inHand instanceof Map)) {
    tell($('outcome'), 'Not taken: what is typed below is no document.', 'bad');
    return;
  }
  $('document').value = spread(withField(inHand, steps, valueAt(document, steps)));
  checkTyped();
  tell($('outcome'), `${path} of ${dot} is in the document below. It is not written yet.`);
}

function cellOf(text, base, take) {
  const mark = markOf(text, base);
  const words = { added: '+ added', removed: '− removed', other: '≠ other value' };
  const cell = make('td', { role: 'cell', class: mark ?? (text === undefined ? 'none' : 'same') });
  if (mark) cell.append(make('span', { class: 'mark' }, words[mark]));
  if (text !== undefined) cell.append(make('span', { class: 'mono value' }, text));
  else if (!mark) cell.append('not there');
  cell.append(...take);
  return cell;
}

/** Shows a key, unless what was typed is to be kept. */
async function turnTo(key) {
  if (await mayDrop()) { lookUp(key); return; }
  $('key').value = shown.key;
  history.replaceState(null, '', addressOf(shown.key));
}

/** Goes to the next key in conflict behind the one that is shown, or to the first. */
async function goToNext() {
  try {
    const behind = shown === null ? [] : await inConflict(shown.key);
    const [key] = behind.length > 0 ? behind : await inConflict();
    if (key === undefined) { tell($('outcome'), 'No key is in conflict.', 'good'); tellSite(); return; }
    if (key === keyOfAddress()) turnTo(key);
    else location.hash = addressOf(key);
  } catch (fault) { tell($('outcome'), fault.message, 'bad'); }
}

async function lookUp(key) {
  const turn = ++lookups;
  $('key').value = key;
  tell($('outcome'), 'Looking it up …');
  try {
    const state = await readKey(key);
    if (turn !== lookups) return;
    show(state);
    tell($('outcome'), describeState(state), state.siblings.length > 1 ? 'warn' : '');
    $('state-title').focus();
    tellSite();
  } catch (fault) {
    if (turn !== lookups) return;
    shown = null;
    $('state').hidden = true;
    $('elsewhere').hidden = true;
    tell($('outcome'), fault.message, 'bad');
  }
}

function describeState({ context, siblings }) {
  if (siblings.length > 1) return `${amount(siblings.length, 'sibling')} were written without one author seeing the other. Pick one, or edit.`;
  if (siblings.length === 1) return `One sibling, ${siblings[0].dot}.`;
  return context === '-' ? 'The site does not hold this key. You can write its first document.'
    : 'The key was deleted. You can write a new document with its context.';
}

// Writes: each with just the context that is shown, and the key is read again after it.

async function write(text) {
  await change((before) => putKey(before, text), describeWrite);
}

async function remove() {
  await change((before) => deleteKey(before), describeDelete);
}

async function change(send, describe) {
  if (busy || shown === null) return;
  const before = shown;
  const turn = ++lookups;
  hold(true);
  tell($('outcome'), 'Writing …');
  try {
    const dot = await send(before);
    if (turn === lookups) await readAgain(before, turn, dot, describe);
    else tell($('outcome'), `${before.key}: ${dot ? `written as ${dot}` : 'deleted what was shown'}. Look it up again to see it.`);
  } catch (fault) {
    const unknown = fault instanceof NoAnswer ? ' The write may have been kept or not: look the key up before you write again.' : '';
    tell($('outcome'), `${before.key}: ${fault.message}${unknown}`, 'bad');
  } finally { hold(false); }
}

async function readAgain(before, turn, dot, describe) {
  let after;
  try { after = await readKey(before.key); } catch (fault) {
    tell($('outcome'), `${dot ? `Written as ${dot}` : 'Deleted'}, but the key could not be read again. ${fault.message}`, 'warn');
    return;
  }
  if (turn !== lookups) return;
  show(after, { mine: dot ?? undefined, seen: before.siblings.map((one) => one.dot) });
  const [words, tone] = describe(after.siblings.map((one) => one.dot), dot);
  tell($('outcome'), words, tone);
  await tellSite();
  if (after.siblings.length > 1 || $('next-row').hidden) $('state-title').focus();
  else $('next').focus();
}

function describeWrite(dots, dot) {
  const others = dots.filter((one) => one !== dot);
  if (dots.includes(dot) && others.length === 0) return [`Written as ${dot}. It is the one sibling now.`, 'good'];
  if (dots.includes(dot)) {
    return [`Written as ${dot}. Somebody else wrote in between: ${listed(others)} ${others.length === 1 ? 'stands' : 'stand'} beside it.`, 'warn'];
  }
  const since = others.length === 0 ? 'deleted it since' : `written over it since: ${listed(others)}`;
  return [`Written as ${dot}. Somebody else has ${since}.`, 'warn'];
}

function describeDelete(dots) {
  if (dots.length === 0) return ['Deleted. The key has no sibling now.', 'good'];
  return [`Deleted what was shown. Somebody else wrote in between: ${listed(dots)} ${dots.length === 1 ? 'is' : 'are'} left.`, 'warn'];
}

function hold(is) {
  busy = is;
  for (const node of document.querySelectorAll('#siblings button, #write')) node.disabled = is;
  $('document').readOnly = is;
  $('delete').disabled = is || shown === null || shown.siblings.length === 0;
}

// The editor.

function edit(place) {
  const one = place === null ? null : shown.siblings[place];
  $('editor-title').textContent = one ? `Edit, from ${one.dot}` : 'Write a document';
  $('document').value = one ? spread(one.document) : '{\n  \n}';
  begun = $('document').value;
  $('document').rows = Math.min(24, Math.max(8, $('document').value.split('\n').length + 1));
  $('meaning').textContent = meaningOf(shown);
  checkTyped();
}

function meaningOf({ context, siblings }) {
  if (siblings.length === 0) return `The document is written with the context ${context}.`;
  const over = siblings.length === 1 ? 'the sibling shown' : `all ${siblings.length} siblings shown`;
  return `Write and Delete act with the context ${context}: on ${over}, and on nothing that somebody else writes meanwhile.`;
}

function checkTyped() {
  const found = checkDocument($('document').value);
  $('check').textContent = found.fault ?? found.words;
  $('check').className = `quiet ${found.fault ? 'bad' : 'good'}`;
  $('document').setAttribute('aria-invalid', String(found.fault !== undefined));
  return found;
}

function writeTyped(event) {
  event.preventDefault();
  const found = checkTyped();
  if (found.fault === undefined) { write(found.compact); return; }
  tell($('outcome'), `Not sent. ${found.fault}`, 'bad');
  $('document').focus();
}

async function askToDelete() {
  const dots = shown.siblings.map((one) => one.dot);
  const typed = isTyped() ? ' What you typed is dropped.' : '';
  const words = `Delete ${shown.key}: ${dots.length === 1 ? 'the sibling' : 'the siblings'} ${listed(dots)}?${typed}`;
  if (await isSure(words, 'Delete')) remove();
}

// What changes elsewhere while the page is open.

const WAIT_SECONDS = 50;
const PAUSE = 5000;
let following = 0;

/** Asks the site for what changed, again and again. */
async function follow() {
  const mine = ++following;
  let since;
  while (mine === following) {
    try {
      const news = await ask('GET', `/changes${query({ since, wait: since === undefined ? undefined : WAIT_SECONDS })}`);
      const isNew = since !== undefined && since !== news.get('root');
      since = news.get('root');
      if (isNew && mine === following) await hear(news);
    } catch (fault) {
      // With a token it begins again.
      if (fault instanceof Refused && fault.number === '38') return;
      await new Promise((done) => { setTimeout(done, PAUSE); });
    }
  }
}

function stateText({ context, siblings }) { return `${context} ${siblings.map((one) => one.dot).join()}`; }

/** Tells where the key that is shown is among what changed, and another one now. */
async function hear(news) {
  tellSite();
  const before = shown;
  if (before === null || busy || !(news.get('resync') || news.get('keys').includes(before.key))) return;
  const now = await readKey(before.key);
  if (shown !== before || busy || stateText(now) === stateText(before)) return;
  const dots = now.siblings.map((one) => one.dot);
  $('elsewhere-text').textContent = `${before.key} changed elsewhere: ${dots.length === 0 ? 'it has no sibling now' : `it has ${listed(dots)} now`}.`;
  $('elsewhere').hidden = false;
}

function askForToken() {
  if (!$('door').open) $('door').showModal();
}

function comeIn() {
  token = $('token').value;
  sessionStorage.setItem('mvd-token', token);
  $('token').value = '';
  tellSite();
  followAddress();
  follow();
}

// Lists.

const AT_ONCE = 6;
let list = null;

/** Begins a list. `next` gives `{rows, more}`; a row is its cells, and its key where it is of one. */
async function begin(heads, next) {
  list = { next, heads, siblings: new Map(), cells: new Map(), rows: 0 };
  const table = make('table', { class: 'list' }, make('thead', {}, make('tr', {},
    ...heads.map(([text, kind]) => make('th', { scope: 'col', class: kind }, text)))), make('tbody'));
  $('rows').replaceChildren(table);
  $('rows').hidden = true;
  await goOn();
}

async function goOn() {
  const mine = list;
  $('more').hidden = true;
  tell($('listed'), 'Listing …');
  try {
    const { rows, more } = await mine.next();
    if (mine !== list) return;
    for (const row of rows) addRow(mine, row);
    $('rows').hidden = mine.rows === 0;
    await countSiblings(mine);
    if (mine !== list) return;
    tell($('listed'), describeList(mine, more));
    $('more').hidden = !more;
  } catch (fault) {
    if (mine === list) tell($('listed'), fault.message, 'bad');
  }
}

function addRow(mine, { key, cells, siblings }) {
  if (siblings !== undefined) mine.siblings.set(key, siblings);
  const nodes = cells.map((cell, place) => make('td', { class: mine.heads[place][1] }, cell));
  if (key !== undefined) {
    nodes.push(make('td', { class: 'number' }, mine.siblings.has(key) ? '' : '…'));
    if (!mine.cells.has(key)) mine.cells.set(key, []);
    mine.cells.get(key).push(nodes.at(-1));
    if (mine.siblings.has(key)) fillCount(mine, key);
  }
  $('rows').querySelector('tbody').append(make('tr', {}, ...nodes));
  mine.rows += 1;
}

/** Reads the listed keys, a few at once, for how many siblings each has. */
async function countSiblings(mine) {
  const left = [...mine.cells.keys()].filter((key) => !mine.siblings.has(key));
  const work = async () => {
    while (left.length > 0 && mine === list) {
      const key = left.shift();
      try { mine.siblings.set(key, (await readKey(key)).siblings.length); } catch { mine.siblings.set(key, null); }
      fillCount(mine, key);
    }
  };
  await Promise.all(Array.from({ length: AT_ONCE }, work));
}

function fillCount(mine, key) {
  const count = mine.siblings.get(key);
  for (const cell of mine.cells.get(key)) {
    cell.textContent = count === null ? 'not read' : String(count);
    cell.classList.toggle('several', count > 1);
  }
}

function describeList(mine, more) {
  const rest = more ? ' There are more.' : '';
  if (mine.rows === 0) return 'Nothing is listed here.';
  if (mine.heads.at(-1)[0] !== 'Siblings') return `${amount(mine.rows, 'row')}.${rest}`;
  const several = [...mine.siblings.values()].filter((count) => count > 1).length;
  const keys = amount(mine.siblings.size, 'key');
  return `${keys} listed, ${several === 0 ? 'none' : several} with more than one sibling.${rest}`;
}

function addressOf(key) { return `#key=${encodeURIComponent(key)}`; }
function keyLink(key) { return make('a', { href: addressOf(key), class: 'mono' }, key); }
function termText(text) { return make('span', { class: 'mono' }, text); }

function rowsOfKeys(page) {
  return page.get('keys').map((one) => ({ key: one.get('key'), cells: [keyLink(one.get('key'))], siblings: Number(one.get('siblings').text) }));
}

const KEY_HEADS = [['Key', ''], ['Siblings', 'number']];

async function listKeys() {
  const prefix = $('prefix').value === '' ? undefined : $('prefix').value;
  const live = $('live').checked ? 1 : undefined;
  await begin(KEY_HEADS, paged((after) => ask('GET', `/keys${query({ prefix, live, after })}`), rowsOfKeys));
}

async function listConflicts() {
  await begin(KEY_HEADS, paged((after) => ask('GET', `/conflicts${query({ after })}`), rowsOfKeys));
}

/** A list whose pages come by `next`. `ask` takes what `after` is, `rowsOf` makes a page's rows. */
function paged(request, rowsOf) {
  let after;
  return async () => {
    let rows;
    // A page may be empty and still have a next one.
    do {
      const page = await request(after);
      rows = rowsOf(page);
      after = page.get('next');
    } while (rows.length === 0 && after !== undefined);
    return { rows, more: after !== undefined };
  };
}

function term(id) { return $(id).value.trim() === '' ? undefined : $(id).value.trim(); }

async function listIndex() {
  const [is, from, to] = [term('is'), term('from'), term('to')];
  const given = is === undefined ? { from, to } : { is };
  const alone = is !== undefined && (from !== undefined || to !== undefined);
  if (alone || (is === undefined && (from === undefined || to === undefined))) {
    tell($('listed'), 'Give one term that it is, or two: from and to.', 'bad');
    return;
  }
  const field = part($('field').value);
  await begin([['Term', ''], ['Key', ''], ['Dot', 'mono'], ['Siblings', 'number']], paged(
    (after) => ask('GET', `/index/${field}${query({ ...given, after })}`),
    (page) => page.get('places').map((place) => ({ key: place.get('key'),
      cells: [termText(compact(place.get('term'))), keyLink(place.get('key')), place.get('dot')] })),
  ));
}

async function listView() {
  const is = term('row');
  const view = part($('view').value);
  const cellsOf = (row, own) => ({ cells: [termText(own ?? compact(row.get('term'))),
    ...['count', 'sum', 'least', 'greatest'].map((name) => (row.get(name) instanceof Whole ? row.get(name).text : '-'))] });
  await begin([['Term', ''], ['Count', 'number'], ['Sum', 'number'], ['Least', 'number'], ['Greatest', 'number']],
    is === undefined
      ? paged((after) => ask('GET', `/views/${view}/rows${query({ after })}`), (page) => page.get('rows').map((row) => cellsOf(row)))
      : paged((after) => ask('GET', `/views/${view}/row${query({ is, after })}`), (row) => [cellsOf(row, is)]));
}

// What happens when.

function chosenKind() { return document.querySelector('input[name=kind]:checked').value; }

function chooseKind() {
  for (const kind of ['keys', 'conflicts', 'index', 'view']) $(`${kind}-form`).hidden = kind !== chosenKind();
  list = null;
  for (const id of ['rows', 'more']) $(id).hidden = true;
  tell($('listed'), '');
}

function onSubmit(id, action) {
  $(id).addEventListener('submit', async (event) => {
    event.preventDefault();
    try { await action(); } catch (fault) { tell($('listed'), fault.message, 'bad'); }
  });
}

function checkTerm(event) {
  const wrong = event.target.value.trim() !== '' && !isTerm(event.target.value);
  event.target.setAttribute('aria-invalid', String(wrong));
}

function keyOfAddress() {
  const found = /^#key=(.*)$/.exec(location.hash);
  try { return found ? decodeURIComponent(found[1]) : null; } catch { return null; }
}

function followAddress() {
  const key = keyOfAddress();
  if (key !== null) turnTo(key);
}

function lookUpTyped(event) {
  event.preventDefault();
  const key = $('key').value;
  if (key === keyOfAddress()) turnTo(key);
  else location.hash = addressOf(key);
}

async function tellSite() {
  try {
    const root = await ask('GET', '/root');
    $('site').replaceChildren(`Site ${root.get('site').text}, ${amount(Number(root.get('keys').text), 'key')}, root `,
      make('code', { title: root.get('root') }, `${root.get('root').slice(0, 12)}…`));
    const several = Number(root.get('conflicts').text);
    $('work').textContent = `${amount(several, 'key')} in conflict: work through ${several === 1 ? 'it' : 'them'}`;
    for (const id of ['work-row', 'next-row']) $(id).hidden = several === 0;
  } catch (fault) { $('site').textContent = fault.message; }
}

function start() {
  $('look').addEventListener('submit', lookUpTyped);
  $('only').addEventListener('change', showSiblings);
  $('document').addEventListener('input', checkTyped);
  $('editor').addEventListener('submit', writeTyped);
  $('delete').addEventListener('click', askToDelete);
  $('sure-no').addEventListener('click', () => $('sure').close());
  $('sure-yes').addEventListener('click', () => $('sure').close('yes'));
  $('token-form').addEventListener('submit', comeIn);
  for (const id of ['work', 'next']) $(id).addEventListener('click', goToNext);
  $('again').addEventListener('click', () => turnTo(shown.key));
  $('skip').addEventListener('click', (event) => { event.preventDefault(); $('key').focus(); });
  $('kind').addEventListener('change', chooseKind);
  $('more').addEventListener('click', goOn);
  onSubmit('keys-form', listKeys);
  onSubmit('conflicts-form', listConflicts);
  onSubmit('index-form', listIndex);
  onSubmit('view-form', listView);
  for (const id of ['is', 'from', 'to', 'row']) $(id).addEventListener('input', checkTerm);
  window.addEventListener('hashchange', followAddress);
  window.addEventListener('beforeunload', (event) => { if (isTyped()) event.preventDefault(); });
  tellSite();
  followAddress();
  follow();
}

start();
</script>
</body>
</html>
"##;
