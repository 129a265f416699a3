//! The script of a page of HTML: a button that opens all boxes, a search, and parts that are read
//! when they are opened. Without it button and search are not there. It has none of the characters
//! that a page writes in another way.

/// The script. What a part holds is text of its `noscript` until it is filled.
pub const SCRIPT: &str = "\
document.addEventListener('DOMContentLoaded', function () {
  var parts = Array.from(document.querySelectorAll('.part'));
  var tools = document.createElement('div');
  var all = document.createElement('button');
  var find = document.createElement('input');
  function boxes() { return Array.from(document.querySelectorAll('details')); }
  function fill(part) {
    var held = part.querySelector('noscript');
    if (held) { held.outerHTML = held.textContent; }
  }
  function fillThoseWith(markup) {
    parts.forEach(function (part) {
      var held = part.querySelector('noscript');
      if (held) { if (held.textContent.toLowerCase().includes(markup)) { fill(part); } }
    });
  }
  function follow() {
    var name = location.hash.slice(1);
    var quote = String.fromCharCode(34);
    if (!name) { return; }
    fillThoseWith(' id=' + quote + name.toLowerCase() + quote);
    var box = document.getElementById(name);
    if (!box) { return; }
    var part = box.closest('.part');
    if (part) { part.open = true; }
    box.scrollIntoView();
  }
  tools.className = 'tools';
  all.textContent = 'Open all';
  all.onclick = function () {
    var opens = all.textContent === 'Open all';
    if (opens) { parts.forEach(fill); }
    boxes().forEach(function (box) { box.open = opens; });
    all.textContent = opens ? 'Close all' : 'Open all';
  };
  find.type = 'search';
  find.placeholder = 'Search';
  find.setAttribute('aria-label', 'Search');
  find.oninput = function () {
    var word = find.value.toLowerCase();
    var written = document.createElement('i');
    written.textContent = word;
    if (word) { fillThoseWith(written.innerHTML); }
    boxes().forEach(function (box) {
      box.hidden = !box.textContent.toLowerCase().includes(word);
      if (box.className === 'part') { box.open = word ? !box.hidden : false; }
    });
  };
  parts.forEach(function (part) { part.ontoggle = function () { fill(part); }; });
  window.onbeforeprint = function () { parts.forEach(fill); };
  window.onhashchange = follow;
  tools.append(all, find);
  document.querySelector('.ends').before(tools);
  follow();
});
";
